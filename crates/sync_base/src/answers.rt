ghost use Rattle.std.specs.Prelude.{◌≡◌};
ghost use Rattle.sync_base.specs.Codes.{break_code, mismatch_code};

use sync_data::Instr;

/// Why an instruction doesn't act on a state. Each has its code.
#[derive(Clone, Copy, Debug, PartialEq, Eq)]
pub enum Break {
    TableExists,
    NoTable,
    ColumnExists,
    BadColumn,
    NoColumn,
    WrongShape,
    WrongKind,
    BadPrior,
    NoObject,
    WrongKeyKind,
}

/// Why two instructions can't be merged. Each has its code.
#[derive(Clone, Copy, Debug, PartialEq, Eq)]
pub enum Mismatch {
    TablesDiffer,
    ColumnsDiffer,
    SizesDiffer,
    Range,
}

/// What is left of two instructions that meet: of each side an instruction, or nothing.
#[derive(Drop)]
pub struct Outcome {
    pub left: Option<Instr>,
    pub right: Option<Instr>,
}

impl Break {
    /// The number that stands for it in messages and outcome lines.
    pub fn code(self) -> u8
        ensures { result ≡ break_code self }
    {
        match self {
            Break::TableExists => 10,
            Break::NoTable => 11,
            Break::ColumnExists => 12,
            Break::BadColumn => 13,
            Break::NoColumn => 14,
            Break::WrongShape => 20,
            Break::WrongKind => 21,
            Break::BadPrior => 23,
            Break::NoObject => 30,
            Break::WrongKeyKind => 31,
        }
    }
}

impl Mismatch {
    /// The number that stands for it in messages.
    pub fn code(self) -> u8
        ensures { result ≡ mismatch_code self }
    {
        match self {
            Mismatch::TablesDiffer => 1,
            Mismatch::ColumnsDiffer => 2,
            Mismatch::SizesDiffer => 3,
            Mismatch::Range => 4,
        }
    }
}
