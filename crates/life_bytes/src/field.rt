ghost use Rattle.std.specs.Prelude.{◌≡◌, ◌<◌, ◌≤◌, ◌^◌, ◌++◌, ℕ, List, Option, length, All, IfOk, OnOk};
ghost use Rattle.sync_io.specs.Formats.{listed, listed_in, many_in};
ghost use Rattle.sync_messages.specs.Reading.{Gives};

use crate::parts::number_of;
use std::alloc::Global;
use sync_io::{NoMemory, put_varint32};
use sync_messages::MessageRefusal;

/// A value of which lists are made: how it is spelled and read.
pub(crate) trait Field: Drop {
    ghost spelling: { Self → List ℕ };

    ghost field_in: { List ℕ → Option (Self × List ℕ) };

    ghost IsWhole: { Self → Type 0 };

    /// The value that the bytes begin with, and the bytes behind it.
    fn field_of(alloc: Global, bytes: &[u8]) -> Result<(Self, &[u8]), MessageRefusal>
        ensures { Gives (λ x. (x.0, x.1.now)) result (field_in bytes.now) };

    /// Writes it at the end.
    fn put(&self, out: &mut Vec<u8>) -> Result<(), NoMemory>
        ensures spelled { OnOk result (out.new.items ≡ out.old.items ++ spelling self.now) }
        ensures is { OnOk result (IsWhole self.now) };
}

fn many_of<T: Field>(
    alloc: Global,
    count: u32,
    bytes: &[u8],
) -> Result<(Vec<T>, &[u8]), MessageRefusal>
    ensures read { Gives (λ x. (x.0.items, x.1.now)) result (many_in T.field_in count bytes.now) }
    ensures count { IfOk result (λ x. length x.0.items ≡ count) }
{
    let mut items = Vec::new(alloc);
    let mut rest = bytes;
    for _ in 0..count {
        let (item, after) = T::field_of(alloc, rest)?;
        items.push(item)?;
        rest = after;
    }
    Ok((items, rest))
}

/// The list of at most so many values that the bytes begin with, and the bytes behind it.
pub(crate) fn listed_of<T: Field>(
    alloc: Global,
    most: u32,
    bytes: &[u8],
) -> Result<(Vec<T>, &[u8]), MessageRefusal>
    ensures read { Gives (λ x. (x.0.items, x.1.now)) result (listed_in most T.field_in bytes.now) }
    ensures few { IfOk result (λ x. length x.0.items ≤ most) }
{
    let (count, rest) = number_of(bytes)?;
    if count > most {
        return Err(MessageRefusal::BadMessage);
    }
    many_of(alloc, count, rest)
}

/// Writes a list at the end, which has less than 2^32 values.
pub(crate) fn put_listed<T: Field>(out: &mut Vec<u8>, items: &[T]) -> Result<(), NoMemory>
    requires { length items.now < 2 ^ 32 }
    ensures spelled { OnOk result (out.new.items ≡ out.old.items ++ listed T.spelling items.now) }
    ensures are { OnOk result (All T.IsWhole items.now) }
{
    put_varint32(out, items.len() as u32)?;
    for item in items {
        item.put(out)?;
    }
    Ok(())
}
