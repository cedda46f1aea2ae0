use super::failure::{Failure, number};
use super::running::{Failing, NOTHING, Outcome, ran};
use super::step::Step;
use std::alloc::Global;
use std::mem;
use sync_disk::{Disk, Leaves, MemoryDisk};
use sync_io::Status;

/// A file of a name.
#[derive(Drop)]
struct Named {
    name: String,
    disk: MemoryDisk,
}

/// The files on which commands run.
#[derive(Drop)]
pub struct Desk {
    files: Vec<Named>,
}

/// A disk of these bytes, which are synced.
pub fn disk_of(alloc: Global, bytes: &[u8]) -> Result<MemoryDisk, Failure> {
    let mut disk = MemoryDisk::new(alloc)?;
    disk.write_at(0, bytes)?;
    disk.sync()?;
    Ok(disk)
}

/// What a disk holds.
pub fn bytes_of(alloc: Global, disk: &mut MemoryDisk) -> Result<Vec<u8>, Failure> {
    let len = disk.len()? as usize;
    let mut bytes = vec![in alloc; 0u8; len]?;
    disk.read_at(0, &mut bytes)?;
    Ok(bytes)
}

/// What a crash leaves.
fn leaves_of(word: &str) -> Result<Leaves, Failure> {
    match word {
        "drop" => Ok(Leaves::Drop),
        "keep" => Ok(Leaves::Keep),
        "torn" => Ok(Leaves::Torn),
        _ => Err(Failure::Data),
    }
}

/// The words of a command, which one space parts.
pub fn words_of(alloc: Global, command: &str) -> Result<Vec<String>, Failure> {
    let mut words = Vec::new(alloc);
    if !command.is_empty() {
        for word in command.split(" ") {
            words.push(word.to_string(alloc)?)?;
        }
    }
    Ok(words)
}

/// A step that writes nothing is done.
fn done(alloc: Global) -> Outcome {
    Outcome {
        status: Status::Done,
        written: Vec::new(alloc),
    }
}

impl Desk {
    pub fn new(alloc: Global) -> Desk {
        Desk {
            files: Vec::new(alloc),
        }
    }

    /// The disk of a name, which is new and empty where there is none.
    fn disk(&mut self, alloc: Global, name: &str) -> Result<&mut MemoryDisk, Failure> {
        let place = self
            .files
            .iter()
            .position(|file| file.name.as_str() == name);
        if place.is_none() {
            self.files.push(Named {
                name: name.to_string(alloc)?,
                disk: MemoryDisk::new(alloc)?,
            })?;
        }
        let place = place.unwrap_or(self.files.len().saturating_sub(1));
        match self.files.get_mut(place) {
            Some(file) => Ok(&mut file.disk),
            None => Err(Failure::Data),
        }
    }

    /// What the file of a name holds.
    pub fn bytes(&mut self, alloc: Global, name: &str) -> Result<Vec<u8>, Failure> {
        bytes_of(alloc, self.disk(alloc, name)?)
    }

    /// Makes the file of a name one of these bytes.
    fn make(&mut self, alloc: Global, name: &str, bytes: &[u8]) -> Result<(), Failure> {
        let disk = self.disk(alloc, name)?;
        drop(mem::replace(disk, disk_of(alloc, bytes)?));
        Ok(())
    }

    /// Runs a command, or does what else a step names.
    fn run(&mut self, alloc: Global, command: &str, input: &[u8]) -> Result<Outcome, Failure> {
        let words = words_of(alloc, command)?;
        match words.as_slice() {
            [word, name] if word.as_str() == "file" => {
                self.make(alloc, name.as_str(), input)?;
                Ok(done(alloc))
            }
            [word, name] if word.as_str() == "holds" => Ok(Outcome {
                status: Status::Done,
                written: self.bytes(alloc, name.as_str())?,
            }),
            [word, name] if word.as_str() == "crash" => {
                self.disk(alloc, name.as_str())?.crash();
                Ok(done(alloc))
            }
            [word, name, at, leaves] if word.as_str() == "arm" => {
                let at = number(at.as_str())?.max(1);
                let leaves = leaves_of(leaves.as_str())?;
                self.disk(alloc, name.as_str())?.arm(at, leaves);
                Ok(done(alloc))
            }
            [_, name, ..] => {
                let disk = self.disk(alloc, name.as_str())?;
                ran(alloc, &words, input, NOTHING, disk)
            }
            _ => ran(alloc, &words, input, NOTHING, &mut MemoryDisk::new(alloc)?),
        }
    }

    /// Runs the commands of a step one after another, each on what the one before it wrote.
    pub fn play(&mut self, alloc: Global, step: &Step) -> Result<Outcome, Failure> {
        let mut last = done(alloc);
        last.written.extend_from_slice(&step.input)?;
        for command in step.commands.as_str().split(" | ") {
            let next = self.run(alloc, command, &last.written)?;
            last = next;
        }
        Ok(last)
    }

    /// Runs the command of a step on this input over a copy of its file, where one call of the source, of the sink and of the
    /// disk fails.
    pub fn run_copy(
        &mut self,
        alloc: Global,
        step: &Step,
        input: &[u8],
        failing: Failing,
    ) -> Result<Outcome, Failure> {
        let words = words_of(alloc, step.commands.as_str())?;
        let bytes = match words.as_slice() {
            [_, name] => self.bytes(alloc, name.as_str())?,
            _ => Vec::new(alloc),
        };
        let mut disk = disk_of(alloc, &bytes)?;
        disk.fail_at(failing.stroke)?;
        ran(alloc, &words, input, failing, &mut disk)
    }
}
