ghost use Rattle.std.specs.Prelude.{◌≡◌};
ghost use Rattle.sync_io.specs.Statuses.{exit_of};

use sync_io::Status;

/// The exit number where another command holds the file.
const BUSY: u8 = 9;

/// The exit number where the life was used before.
const LIFE_USED: u8 = 10;

/// The exit number where the file keeps lives, and the words have none.
const KEEPS_LIVES: u8 = 11;

/// The exit number where an old client has no lives.
const NO_LIVES: u8 = 12;

/// How the program ends (docs/FORMATS.md, "Statuses").
#[derive(Clone, Copy, Debug, PartialEq, Eq)]
pub enum End {
    /// The command ran, with this status.
    Ran(Status),
    /// Another command that writes holds the file. Nothing was read or written.
    Busy,
    /// The life was used before. Nothing was read or written.
    LifeUsed,
    /// The file keeps lives, and the words have none. Nothing was read or written.
    KeepsLives,
    /// The client that is taken over from has no lives. Nothing was read or written.
    NoLives,
}

impl End {
    /// The exit number.
    pub fn exit(&self) -> u8
        ensures ran { (status : Status) → self.now ≡ End.Ran status → result ≡ exit_of status }
        ensures busy { self.now ≡ End.Busy → result ≡ 9 }
        ensures life_used { self.now ≡ End.LifeUsed → result ≡ 10 }
        ensures keeps_lives { self.now ≡ End.KeepsLives → result ≡ 11 }
        ensures no_lives { self.now ≡ End.NoLives → result ≡ 12 }
    {
        match self {
            End::Ran(status) => status.exit(),
            End::Busy => BUSY,
            End::LifeUsed => LIFE_USED,
            End::KeepsLives => KEEPS_LIVES,
            End::NoLives => NO_LIVES,
        }
    }
}
