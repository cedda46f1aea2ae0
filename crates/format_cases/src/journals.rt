//! Journals' files, and the records that they stand for.
use crate::bytes::{bytes_of, columns_of, number_of};
use crate::failure::Failure;
use byte_lists::ByteLists;
use std::alloc::Global;
use sync_disk::{Disk, MemoryDisk};
use sync_journal::{Journal, OpenCause};

/// The case of one line:
/// `file HEX RECORDS AFTER`: a file of these bytes stands for those records, each of which is told by its bytes and a slash,
/// and when it is opened the file becomes AFTER, or stays as it is where that is `same`;
/// `bad PLACE HEX`: it is no journal, at that place, and stays as it is.
pub fn holds(alloc: Global, word: &str, rest: &str) -> Result<bool, Failure> {
    match word {
        "file" => {
            let (hex, rest) = columns_of(rest)?;
            let (records, after) = columns_of(rest)?;
            let bytes = bytes_of(alloc, hex)?;
            if after == "same" {
                return opens(alloc, &bytes, records, &bytes);
            }
            opens(alloc, &bytes, records, &bytes_of(alloc, after)?)
        }
        "bad" => {
            let (place, hex) = columns_of(rest)?;
            is_bad(alloc, number_of(place)?, &bytes_of(alloc, hex)?)
        }
        _ => Err(Failure::Line),
    }
}

/// A disk with these bytes, which are synced.
fn disk_with(alloc: Global, bytes: &[u8]) -> Result<MemoryDisk, Failure> {
    let Ok(mut disk) = MemoryDisk::new(alloc) else {
        return Err(Failure::Memory);
    };
    if disk.write_at(0, bytes).is_err() || disk.sync().is_err() {
        return Err(Failure::Memory);
    }
    Ok(disk)
}

fn opens(alloc: Global, file: &[u8], records: &str, after: &[u8]) -> Result<bool, Failure> {
    let mut disk = disk_with(alloc, file)?;
    match Journal::open(alloc, &mut disk) {
        Ok((_journal, found)) => {
            if records_text(alloc, &found)?.as_str() != records {
                return Ok(false);
            }
        }
        Err(_) => return Ok(false),
    }
    holds_bytes(alloc, &mut disk, after)
}

fn is_bad(alloc: Global, want: u64, file: &[u8]) -> Result<bool, Failure> {
    let mut disk = disk_with(alloc, file)?;
    match Journal::open(alloc, &mut disk) {
        Ok(_) => return Ok(false),
        Err(refusal) => {
            if refusal.cause != (OpenCause::BadFile { place: want }) {
                return Ok(false);
            }
        }
    }
    holds_bytes(alloc, &mut disk, file)
}

/// Whether a read of the whole content gives these bytes.
fn holds_bytes(alloc: Global, disk: &mut MemoryDisk, want: &[u8]) -> Result<bool, Failure> {
    let Ok(len) = disk.len() else {
        return Err(Failure::System);
    };
    let mut bytes = vec![in alloc; 0u8; len as usize]?;
    if disk.read_at(0, &mut bytes).is_err() {
        return Err(Failure::System);
    }
    Ok(bytes.as_slice() == want)
}

fn records_text(alloc: Global, records: &ByteLists) -> Result<String, Failure> {
    let mut text = String::new(alloc);
    for place in 0..records.len() {
        text.push_str(hex::encode(alloc, records.at(place))?.as_str())?;
        text.push_str("/")?;
    }
    Ok(text)
}
