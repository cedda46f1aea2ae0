ghost use Rattle.std.specs.Prelude.{◌≡◌, length};
ghost use Rattle.sync_codec.specs.declared.refusal.ReadRefusal.TheVariants.{NoMemory};

use std::alloc::{AllocError, AllocFailed};

/// The first fault of bytes that are no changeset: the offset of the field, and the number of the rule that it breaks, 40 to 53.
#[derive(Clone, Copy, Debug, PartialEq, Eq)]
pub struct BadBytes {
    pub offset: u32,
    pub rule: u8,
}

/// Why bytes were not read: they are no changeset, or memory ran out.
#[derive(Clone, Copy, Debug, PartialEq, Eq)]
pub enum DecodeRefusal {
    Bad(BadBytes),
    NoMemory,
}

/// The rules of the bytes, in the order of their numbers.
#[derive(Clone, Copy, PartialEq, Eq)]
pub enum Rule {
    /// The bytes end inside a field, or before a field that must come.
    Truncated,
    /// The first byte is neither 1 nor 2.
    Version,
    /// A number isn't in its shortest form, or out of range.
    Varint,
    /// A string has more than 255 bytes, or a string or a text isn't UTF-8.
    BadText,
    /// A string equals an earlier one.
    StringRepeat,
    /// A string is used before one that stands before it, or isn't there.
    StringOrder,
    /// A string isn't used.
    StringUnused,
    /// A name has 0 or more than 63 bytes.
    NameLength,
    /// A byte that tells what follows isn't in its table.
    BadTag,
    /// A place lies beyond the list.
    BadPlace,
    /// Nanoseconds are of the other sign, or a second or more.
    BadTime,
    /// There are too many instructions, or they carry too many bytes.
    TooLarge,
    /// Bytes follow the last instruction.
    Trailing,
    /// The first byte is 2, and no instruction needs it.
    NeedlessVersion,
}

/// A broken rule, with the number of bytes from the faulty field on.
#[derive(Clone, Copy, PartialEq, Eq)]
pub struct Fault {
    pub left: usize,
    pub rule: Rule,
}

/// Why a reader has no value.
#[derive(Clone, Copy, PartialEq, Eq)]
pub enum ReadRefusal {
    Bad(Fault),
    NoMemory,
}

/// That rule, broken by the field that these bytes begin with.
pub fn broken<T>(field: &[u8], rule: Rule) -> Result<T, ReadRefusal>
    ensures { result ≡ Err (ReadRefusal.Bad (record { left = length field.now; rule = rule })) }
{
    Err(ReadRefusal::Bad(Fault {
        left: field.len(),
        rule,
    }))
}

impl From<AllocError> for ReadRefusal {
    ghost from_gives = { λ _ e. e ≡ NoMemory };

    fn from(_failed: AllocError) -> ReadRefusal {
        ReadRefusal::NoMemory
    }
}

impl<T: Drop> From<AllocFailed<T>> for ReadRefusal {
    ghost from_gives = { λ _ e. e ≡ NoMemory };

    fn from(_failed: AllocFailed<T>) -> ReadRefusal {
        ReadRefusal::NoMemory
    }
}
