//! Changesets: their bytes, and what they are.
use crate::bytes::{body_of, columns_of, number_of};
use crate::failure::Failure;
use std::alloc::Global;
use sync_codec::{DecodeRefusal, decode, encode};
use sync_data::Changeset;
use sync_edits::{NodeLine, node_line_of};

/// The time of each changeset, in milliseconds. It is no part of the bytes.
const MS: u64 = 7;

/// No beginning of longer bytes is tried.
const SHORT: usize = 1_000;

/// The case of one line:
/// `fault OFFSET RULE HEX`: the bytes break that rule first, at that offset;
/// `read HEX`: they are a changeset, which has no other bytes, and no beginning of them is one;
/// `is HEX LINE`: and it is that of the edits of that node line.
pub fn holds(alloc: Global, word: &str, rest: &str) -> Result<bool, Failure> {
    match word {
        "fault" => {
            let (offset, rest) = columns_of(rest)?;
            let (rule, hex) = columns_of(rest)?;
            breaks(alloc, number_of(offset)?, number_of(rule)?, hex)
        }
        "read" => Ok(read(alloc, rest)?.is_some()),
        "is" => {
            let (hex, line) = columns_of(rest)?;
            let Some(found) = read(alloc, hex)? else {
                return Ok(false);
            };
            Ok(found == made(alloc, line)?)
        }
        _ => Err(Failure::Line),
    }
}

fn breaks(alloc: Global, offset: u64, rule: u64, hex: &str) -> Result<bool, Failure> {
    let bytes = body_of(alloc, hex)?;
    match decode(alloc, MS, &bytes) {
        Ok(_) => Ok(false),
        Err(DecodeRefusal::Bad(bad)) => Ok(bad.offset as u64 == offset && bad.rule as u64 == rule),
        Err(DecodeRefusal::NoMemory) => Err(Failure::Memory),
    }
}

/// The changeset of the bytes, if they alone are its spelling, and no beginning of them is one.
fn read(alloc: Global, hex: &str) -> Result<Option<Changeset>, Failure> {
    let bytes = body_of(alloc, hex)?;
    let changes = match decode(alloc, MS, &bytes) {
        Ok(changes) => changes,
        Err(_) => return Ok(None),
    };
    let Ok(again) = encode(alloc, &changes) else {
        return Err(Failure::Memory);
    };
    if again.as_slice() != bytes.as_slice() || any_beginning(alloc, &bytes) {
        return Ok(None);
    }
    Ok(Some(changes))
}

/// Whether a beginning of the bytes is a changeset.
fn any_beginning(alloc: Global, bytes: &[u8]) -> bool {
    for end in 0..bytes.len().min(SHORT) {
        if decode(alloc, MS, &bytes[..end]).is_ok() {
            return true;
        }
    }
    false
}

/// The changeset of a node line's edits.
fn made(alloc: Global, line: &str) -> Result<Changeset, Failure> {
    match node_line_of(alloc, line.as_bytes()) {
        Ok(NodeLine::Commit { ms, edits }) => match Changeset::checked(ms, edits.into_vec()) {
            Ok(changes) => Ok(changes),
            Err(_) => Err(Failure::Line),
        },
        _ => Err(Failure::Line),
    }
}
