ghost use Rattle.std.specs.Prelude.{◌≡◌, ◌<◌, ◌^◌, ◌++◌, ◌∷◌, length, OnOk};
ghost use Rattle.sync_io.specs.Formats.{body as sized};
ghost use Rattle.sync_io.specs.Varints.{varint};
ghost use Rattle.sync_records.specs.Limits.{IsCarried};
ghost use Rattle.sync_records.specs.Spelling.{left_out};

use sync_data::{Blob, Ident};
use sync_io::{NoMemory, put_varint32, put_varint64};

/// Room for most records.
pub(crate) const ROOM: usize = 128;

/// A number behind a tag.
pub(crate) fn put_number(out: &mut Vec<u8>, tag: u8, number: u32) -> Result<(), NoMemory>
    ensures { OnOk result (out.new.items ≡ out.old.items ++ (tag ∷ varint number)) }
{
    out.push(tag)?;
    put_varint32(out, number)
}

/// Two numbers behind a tag.
pub(crate) fn put_pair(out: &mut Vec<u8>, tag: u8, first: u32, second: u32) -> Result<(), NoMemory>
    ensures { OnOk result (out.new.items ≡ out.old.items ++ (tag ∷ (varint first ++ varint second))) }
{
    out.push(tag)?;
    put_varint32(out, first)?;
    put_varint32(out, second)
}

/// What an entry and one that was carried have, behind a tag.
pub(crate) fn put_entry(
    out: &mut Vec<u8>,
    tag: u8,
    numbers: (Ident, u32, u32),
    ms: u64,
    body: &Blob,
) -> Result<(), NoMemory>
    ensures { OnOk result (out.new.items ≡ out.old.items ++ (tag ∷ (varint numbers.0 ++ varint numbers.1 ++ varint numbers.2 ++ varint ms ++ body.now))) }
{
    let (origin, number, base) = numbers;
    out.push(tag)?;
    put_varint32(out, origin)?;
    put_varint32(out, number)?;
    put_varint32(out, base)?;
    put_varint64(out, ms)?;
    out.extend_from_slice(body.bytes())?;
    Ok(())
}

/// An unsent change: its numbers, its time, its bytes as it was made and as it was carried, of which the latter are left out
/// where they are the same.
pub(crate) fn put_waits(
    out: &mut Vec<u8>,
    numbers: (u32, u32),
    ms: u64,
    body: &[u8],
    current: &[u8],
) -> Result<(), NoMemory>
    ensures spelled { OnOk result (out.new.items ≡ out.old.items ++ (17 ∷ (varint numbers.0 ++ varint numbers.1 ++ varint ms ++ sized body.now ++ left_out body.now current.now))) }
    ensures small { OnOk result (length body.now < 2 ^ 32) }
    ensures carried { OnOk result (IsCarried body.now current.now) }
{
    let Ok(size) = u32::try_from(body.len()) else {
        return Err(NoMemory);
    };
    if current.is_empty() && !body.is_empty() {
        return Err(NoMemory);
    }
    let (number, base) = numbers;
    put_pair(out, 17, number, base)?;
    put_varint64(out, ms)?;
    put_varint32(out, size)?;
    out.extend_from_slice(body)?;
    if current != body {
        out.extend_from_slice(current)?;
    }
    Ok(())
}

/// Bytes behind a tag.
pub(crate) fn put_bytes(out: &mut Vec<u8>, tag: u8, bytes: &[u8]) -> Result<(), NoMemory>
    ensures { OnOk result (out.new.items ≡ out.old.items ++ (tag ∷ bytes.now)) }
{
    out.push(tag)?;
    out.extend_from_slice(bytes)?;
    Ok(())
}
