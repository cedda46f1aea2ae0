ghost use Rattle.std.specs.Prelude.{◌≡◌, length};
ghost use Rattle.sync_codec.specs.Fields.{Gives, byte_in, run_in, number32_in, number64_in, signed32_in, signed64_in};

use crate::refusal::{ReadRefusal, Rule, broken};
use sync_io::{VarintFault, unzigzag32, unzigzag64, varint32_of, varint64_of};

/// The byte at the front.
pub fn byte_of(bytes: &[u8]) -> Result<(u8, &[u8]), ReadRefusal>
    ensures { Gives (λ x. (x.0, x.1.now)) result (byte_in bytes.now) }
{
    match bytes {
        [] => broken(bytes, Rule::Truncated),
        [byte, rest @ ..] => Ok((*byte, rest)),
    }
}

/// So many bytes at the front.
pub fn run_of(bytes: &[u8], len: usize) -> Result<(&[u8], &[u8]), ReadRefusal>
    ensures { Gives (λ x. (x.0.now, x.1.now)) result (run_in len bytes.now) }
{
    if bytes.len() < len {
        return broken(bytes, Rule::Truncated);
    }
    Ok(bytes.split_at(len))
}

/// The number of at most 32 bits at the front.
pub fn number32_of(bytes: &[u8]) -> Result<(u32, &[u8]), ReadRefusal>
    ensures { Gives (λ x. (x.0, x.1.now)) result (number32_in bytes.now) }
{
    match varint32_of(bytes) {
        Ok(found) => Ok(found),
        Err(VarintFault::Truncated) => broken(bytes, Rule::Truncated),
        Err(VarintFault::Bad) => broken(bytes, Rule::Varint),
    }
}

/// The number of at most 64 bits at the front.
pub fn number64_of(bytes: &[u8]) -> Result<(u64, &[u8]), ReadRefusal>
    ensures { Gives (λ x. (x.0, x.1.now)) result (number64_in bytes.now) }
{
    match varint64_of(bytes) {
        Ok(found) => Ok(found),
        Err(VarintFault::Truncated) => broken(bytes, Rule::Truncated),
        Err(VarintFault::Bad) => broken(bytes, Rule::Varint),
    }
}

/// The number with a sign, of at most 32 bits, at the front.
pub fn signed32_of(bytes: &[u8]) -> Result<(i32, &[u8]), ReadRefusal>
    ensures { Gives (λ x. (x.0, x.1.now)) result (signed32_in bytes.now) }
{
    let (number, rest) = number32_of(bytes)?;
    Ok((unzigzag32(number), rest))
}

/// The number with a sign, of at most 64 bits, at the front.
pub fn signed64_of(bytes: &[u8]) -> Result<(i64, &[u8]), ReadRefusal>
    ensures { Gives (λ x. (x.0, x.1.now)) result (signed64_in bytes.now) }
{
    let (number, rest) = number64_of(bytes)?;
    Ok((unzigzag64(number), rest))
}
