//! Inputs, and the lines or frames that are read of them.
use crate::bytes::{bytes_of, columns_of};
use crate::failure::Failure;
use std::alloc::Global;
use sync_io::{FrameReader, LineReader, MemorySource, ReadRefusal};

/// As many lines or frames are read of an input, and no more.
const MOST: u32 = 20;

/// Longer ones are told by their length.
const SHORT: usize = 1_000;

/// The case of one line: `lines HEX READ` and `frames HEX READ`: of these bytes those are read. Each line or frame is told by
/// its bytes, or `*` and its length where they are many, and a slash; and then comes the word of the refusal, if there is one.
pub fn holds(alloc: Global, word: &str, rest: &str) -> Result<bool, Failure> {
    let (hex, told) = columns_of(rest)?;
    let mut source = MemorySource::new(bytes_of(alloc, hex)?, Vec::new(alloc));
    match word {
        "lines" => Ok(lines_of(alloc, &mut source)?.as_str() == told),
        "frames" => Ok(frames_of(alloc, &mut source)?.as_str() == told),
        _ => Err(Failure::Line),
    }
}

fn lines_of(alloc: Global, source: &mut MemorySource) -> Result<String, Failure> {
    let Ok(mut reader) = LineReader::new(alloc) else {
        return Err(Failure::Memory);
    };
    let mut text = String::new(alloc);
    for _ in 0..MOST {
        if !put(&mut text, reader.next(source))? {
            break;
        }
    }
    Ok(text)
}

fn frames_of(alloc: Global, source: &mut MemorySource) -> Result<String, Failure> {
    let Ok(mut reader) = FrameReader::new(alloc) else {
        return Err(Failure::Memory);
    };
    let mut text = String::new(alloc);
    for _ in 0..MOST {
        if !put(&mut text, reader.next(source))? {
            break;
        }
    }
    Ok(text)
}

/// Tells what was read, and whether more may follow.
fn put(text: &mut String, read: Result<Option<Vec<u8>>, ReadRefusal>) -> Result<bool, Failure> {
    match read {
        Ok(None) => Ok(false),
        Ok(Some(item)) => {
            put_item(text, &item)?;
            Ok(true)
        }
        Err(refusal) => {
            write!(text, "{refusal:?}")?;
            Ok(false)
        }
    }
}

fn put_item(text: &mut String, item: &[u8]) -> Result<(), Failure> {
    if item.len() > SHORT {
        write!(text, "*{}/", item.len())?;
        return Ok(());
    }
    for byte in item {
        write!(text, "{byte:02x}")?;
    }
    text.push_str("/")?;
    Ok(())
}
