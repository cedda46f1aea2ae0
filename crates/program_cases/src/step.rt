use super::failure::{Failure, number};
use std::alloc::Global;

/// A step of the commands over files: commands by their words, of which each reads what the one before it writes, with what
/// the first reads and what the last must write.
#[derive(Drop)]
pub struct Step {
    pub commands: String,
    pub input: Vec<u8>,
    /// Where the last line or frame of the input begins.
    pub last: usize,
    pub want: Vec<u8>,
}

impl Step {
    pub fn new(alloc: Global, commands: &str) -> Result<Step, Failure> {
        Ok(Step {
            commands: commands.to_string(alloc)?,
            input: Vec::new(alloc),
            last: 0,
            want: Vec::new(alloc),
        })
    }

    /// Takes a line of a step: its commands, or what it reads or must write.
    pub fn take(&mut self, alloc: Global, mark: &str, rest: &str) -> Result<(), Failure> {
        match mark {
            "$" => *self = Step::new(alloc, rest)?,
            "<" | "<:" => {
                self.last = self.input.len();
                put(alloc, &mut self.input, mark, rest)?;
            }
            ">" | ">:" => put(alloc, &mut self.want, mark, rest)?,
            _ => self.repeat(alloc, mark, rest)?,
        }
        Ok(())
    }

    /// Takes a line that stands behind `<*COUNT` so many times; a text behind `<+COUNT` so often, without the end of a line.
    fn repeat(&mut self, alloc: Global, mark: &str, rest: &str) -> Result<(), Failure> {
        if let Some(count) = mark.strip_prefix("<*") {
            for _ in 0..number(count)? {
                put(alloc, &mut self.input, "<", rest)?;
            }
        }
        if let Some(count) = mark.strip_prefix("<+") {
            for _ in 0..number(count)? {
                self.input.extend_from_slice(rest.as_bytes())?;
            }
        }
        Ok(())
    }
}

/// Puts a line of text, or where the mark has a colon a frame in hexadecimal digits, behind the bytes.
fn put(alloc: Global, bytes: &mut Vec<u8>, mark: &str, text: &str) -> Result<(), Failure> {
    if mark.ends_with(":") {
        let frame = hex::decode(alloc, text).ok().ok_or(Failure::Data)?;
        bytes.extend_from_slice(&frame)?;
        return Ok(());
    }
    bytes.extend_from_slice(text.as_bytes())?;
    bytes.push(b'\n')?;
    Ok(())
}
