/// Why a reader gives no further line or frame (docs/FORMATS.md, "Lines").
#[derive(Clone, Copy, Debug, PartialEq, Eq)]
pub enum ReadRefusal {
    /// The source failed in this call, or in an earlier one of this reader.
    Failed,
    /// More than 67,108,864 bytes of a line were taken, or a frame's length is greater than that.
    TooLong,
    /// The input ends inside a frame.
    Cut,
    /// 2^32 bytes were taken without the end of the input, and what is left of them holds no whole
    /// line or frame.
    InputTooLong,
    /// Memory ran out. The reader isn't used again.
    NoMemory,
}
