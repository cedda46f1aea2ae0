ghost use Rattle.std.specs.Prelude.{◌≡◌, ℕ, ◌+◌, ◌<◌, ◌≤◌, ◌^◌, ◌++◌, length, Ok, Err, OnOk, IfOk};
ghost use Rattle.sync_io.specs.Varints.{varint, below, number_at, varint32_at, varint64_at, zigzag, unzigzag};
ghost use Rattle.sync_io.specs.VarintReads.{Reads};

use super::memory::NoMemory;

/// Why bytes begin with no number.
#[derive(Clone, Copy, Debug, PartialEq, Eq)]
pub enum VarintFault {
    /// The bytes end before the number's last byte, and are fewer than the most that it may have.
    Truncated,
    /// The number has no last byte among the most that it may have, or a needless last byte, or is
    /// out of range.
    Bad,
}

/// Writes a number of at most 32 bits at the end, in its shortest form.
pub fn put_varint32(out: &mut Vec<u8>, number: u32) -> Result<(), NoMemory>
    ensures { OnOk result (out.new.items ≡ out.old.items ++ varint number) }
{
    put_varint64(out, number as u64)
}

/// Writes a number of at most 64 bits at the end, in its shortest form.
pub fn put_varint64(out: &mut Vec<u8>, number: u64) -> Result<(), NoMemory>
    ensures { OnOk result (out.new.items ≡ out.old.items ++ varint number) }
{
    let mut rest = number;
    'bytes: while rest >= 128 {
        out.push((128 + rest % 128) as u8)?;
        rest /= 128;
    }
    out.push(rest as u8)?;
    Ok(())
}

/// The number at the front, of at most so many bytes and 64 bits, and the bytes behind it. Most have one byte.
#[inline(always)]
fn number_of(bytes: &[u8], room: u32) -> Result<(u64, &[u8]), VarintFault>
    ensures { Reads (λ x. (x.0, x.1.now)) result (below (2 ^ 64) (number_at room bytes.now)) }
{
    if room == 0 {
        return Err(VarintFault::Bad);
    }
    match bytes {
        [] => Err(VarintFault::Truncated),
        [byte, rest @ ..] => {
            if *byte < 128 {
                return Ok((*byte as u64, rest));
            }
            longer_number_of(bytes, room)
        }
    }
}

/// The same, byte by byte.
fn longer_number_of(bytes: &[u8], room: u32) -> Result<(u64, &[u8]), VarintFault>
    ensures { Reads (λ x. (x.0, x.1.now)) result (below (2 ^ 64) (number_at room bytes.now)) }
{
    if room == 0 {
        return Err(VarintFault::Bad);
    }
    match bytes {
        [] => Err(VarintFault::Truncated),
        [byte, rest @ ..] => {
            if *byte < 128 {
                return Ok((*byte as u64, rest));
            }
            let (higher, rest) = longer_number_of(rest, room - 1)?;
            if higher == 0 {
                return Err(VarintFault::Bad);
            }
            if higher > u64::MAX / 128 {
                return Err(VarintFault::Bad);
            }
            Ok(((*byte % 128) as u64 + 128 * higher, rest))
        }
    }
}

/// The number of at most 32 bits that the bytes begin with, and the bytes behind it.
pub fn varint32_of(bytes: &[u8]) -> Result<(u32, &[u8]), VarintFault>
    ensures { Reads (λ x. (x.0, x.1.now)) result (varint32_at bytes.now) }
{
    let (number, rest) = number_of(bytes, 5)?;
    if number > u32::MAX as u64 {
        return Err(VarintFault::Bad);
    }
    Ok((number as u32, rest))
}

/// The number of at most 64 bits that the bytes begin with, and the bytes behind it.
#[tactic(auto, unfolding(crate::specs::Varints::varint64_at))]
pub fn varint64_of(bytes: &[u8]) -> Result<(u64, &[u8]), VarintFault>
    ensures { Reads (λ x. (x.0, x.1.now)) result (varint64_at bytes.now) }
{
    number_of(bytes, 10)
}

/// A number with a sign as one without: 2n, and for a negative one -2n - 1.
pub fn zigzag32(number: i32) -> u32
    ensures { result ≡ zigzag number }
{
    if number >= 0 {
        2 * (number as u32)
    } else {
        2 * (-(number + 1)) as u32 + 1
    }
}

/// A number with a sign as one without: 2n, and for a negative one -2n - 1.
pub fn zigzag64(number: i64) -> u64
    ensures { result ≡ zigzag number }
{
    if number >= 0 {
        2 * (number as u64)
    } else {
        2 * (-(number + 1)) as u64 + 1
    }
}

/// The number whose form without a sign this is.
pub fn unzigzag32(number: u32) -> i32
    ensures { result ≡ unzigzag number }
{
    let half = (number / 2) as i32;
    if number % 2 == 0 { half } else { !half }
}

/// The number whose form without a sign this is.
pub fn unzigzag64(number: u64) -> i64
    ensures { result ≡ unzigzag number }
{
    let half = (number / 2) as i64;
    if number % 2 == 0 { half } else { !half }
}
