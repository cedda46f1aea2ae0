ghost use Rattle.std.specs.Prelude.{◌≡◌};
ghost use Rattle.sync_io.specs.Statuses.{exit_of};

/// How a run of the program ended (docs/FORMATS.md, "Statuses").
#[derive(Clone, Copy, Debug, PartialEq, Eq)]
pub enum Status {
    /// The input was read to its end, and all output was written.
    Done,
    /// The words are none of the commands.
    BadWords,
    /// The line or frame of this number, counted from 1, is none, or is too long or cut.
    BadInput { place: u32 },
    /// The source failed.
    ReadFault,
    /// The sink failed.
    WriteFault,
    /// The disk failed.
    DiskFault,
    /// The file is no journal of that node: the place, in bytes, of what is wrong.
    BadFile { place: u64 },
    /// Memory ran out.
    NoMemory,
    /// 2^32 bytes were read without an end.
    InputTooLong,
}

impl Status {
    /// The number with which the program ends.
    pub fn exit(&self) -> u8
        ensures { result ≡ exit_of self.now }
    {
        match self {
            Status::Done => 0,
            Status::BadWords => 1,
            Status::BadInput { .. } => 2,
            Status::ReadFault => 3,
            Status::WriteFault => 4,
            Status::DiskFault => 5,
            Status::BadFile { .. } => 6,
            Status::NoMemory => 7,
            Status::InputTooLong => 8,
        }
    }
}
