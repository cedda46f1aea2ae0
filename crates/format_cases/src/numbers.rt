//! Numbers in groups of seven bits.
use crate::bytes::{bytes_of, columns_of, number_of};
use crate::failure::Failure;
use std::alloc::Global;
use sync_io::{
    VarintFault, put_varint64, unzigzag32, unzigzag64, varint32_of, varint64_of, zigzag32, zigzag64,
};

/// The case of one line:
/// `is NUMBER HEX`: the number of at most 64 bits has these bytes, and no others;
/// `signed NUMBER MARKED`: the number of 32 bits with a sign is that one without;
/// `none of 32 FAULT HEX` and `none of 64 FAULT HEX`: the bytes begin with no number of so many bits.
pub fn holds(alloc: Global, word: &str, rest: &str) -> Result<bool, Failure> {
    let (first, second) = columns_of(rest)?;
    match word {
        "is" => is(alloc, number_of(first)?, &bytes_of(alloc, second)?),
        "signed" => is_signed(first, second),
        "none of 32" => Ok(varint32_of(&bytes_of(alloc, second)?).err() == Some(fault_of(first)?)),
        "none of 64" => Ok(varint64_of(&bytes_of(alloc, second)?).err() == Some(fault_of(first)?)),
        _ => Err(Failure::Line),
    }
}

fn fault_of(word: &str) -> Result<VarintFault, Failure> {
    match word {
        "Truncated" => Ok(VarintFault::Truncated),
        "Bad" => Ok(VarintFault::Bad),
        _ => Err(Failure::Line),
    }
}

fn is(alloc: Global, number: u64, bytes: &[u8]) -> Result<bool, Failure> {
    let mut out = Vec::new(alloc);
    if put_varint64(&mut out, number).is_err() {
        return Err(Failure::Memory);
    }
    let read = matches!(varint64_of(bytes), Ok((found, [])) if found == number);
    Ok(out.as_slice() == bytes && read)
}

fn is_signed(number: &str, marked: &str) -> Result<bool, Failure> {
    let (Ok(number), Ok(marked)) = (number.parse::<i32>(), marked.parse::<u32>()) else {
        return Err(Failure::Line);
    };
    Ok(
        zigzag32(number) == marked
            && unzigzag32(marked) == number
            && zigzag64(number as i64) == marked as u64
            && unzigzag64(marked as u64) == number as i64,
    )
}
