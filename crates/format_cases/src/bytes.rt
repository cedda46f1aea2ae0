//! Bytes as the data files have them.
ghost use Rattle.std.specs.Prelude.{◌≤◌, length, IfOk};

use crate::failure::Failure;
use std::alloc::Global;

/// The most bytes that a changeset is read of.
const MOST: usize = 67_108_864;

/// The bytes that hex digits in parts, with commas between them, stand for. The byte of a part `HEX*COUNT` stands so often.
pub fn bytes_of(alloc: Global, text: &str) -> Result<Vec<u8>, Failure> {
    let mut bytes = Vec::new(alloc);
    for part in text.split(',') {
        bytes.extend_from_slice(&part_of(alloc, part)?)?;
    }
    Ok(bytes)
}

fn part_of(alloc: Global, part: &str) -> Result<Vec<u8>, Failure> {
    match part.split_once('*') {
        None => hex_of(alloc, part),
        Some((hex, count)) => {
            let count = number_of(count)? as usize;
            match hex_of(alloc, hex)?.as_slice() {
                [byte] => Ok(vec![in alloc; *byte; count]?),
                _ => Err(Failure::Line),
            }
        }
    }
}

/// The same, of so many bytes at most as a changeset is read of.
pub fn body_of(alloc: Global, text: &str) -> Result<Vec<u8>, Failure>
    ensures { IfOk result (λ bytes. length bytes.items ≤ 67108864) }
{
    let bytes = bytes_of(alloc, text)?;
    if bytes.len() > MOST {
        return Err(Failure::Line);
    }
    Ok(bytes)
}

fn hex_of(alloc: Global, hex: &str) -> Result<Vec<u8>, Failure> {
    match hex::decode(alloc, hex) {
        Ok(bytes) => Ok(bytes),
        Err(_) => Err(Failure::Line),
    }
}

/// A number in decimal digits.
pub fn number_of(text: &str) -> Result<u64, Failure> {
    match text.parse::<u64>() {
        Ok(number) => Ok(number),
        Err(_) => Err(Failure::Line),
    }
}

/// A row's two columns.
pub fn columns_of(rest: &str) -> Result<(&str, &str), Failure> {
    rest.split_once('\t').ok_or(Failure::Line)
}
