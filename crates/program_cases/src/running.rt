use super::failure::Failure;
use std::alloc::Global;
use sync_disk::MemoryDisk;
use sync_io::{MemorySink, MemorySource, Status};
use sync_top::run;
use sync_world::World;

/// How a run of the program ended, and what it wrote.
#[derive(Drop)]
pub struct Outcome {
    pub status: Status,
    pub written: Vec<u8>,
}

/// The calls of the source, of the sink and of the disk that fail, counted from 1; none is 0.
#[derive(Clone, Copy)]
pub struct Failing {
    pub read: u64,
    pub write: u64,
    pub stroke: u64,
}

/// Nothing fails.
pub const NOTHING: Failing = Failing {
    read: 0,
    write: 0,
    stroke: 0,
};

/// Runs the program with these words, this input and this disk.
pub fn ran(
    alloc: Global,
    words: &[String],
    input: &[u8],
    failing: Failing,
    disk: &mut MemoryDisk,
) -> Result<Outcome, Failure> {
    let reads = Vec::from_slice(alloc, &[failing.read])?;
    let writes = Vec::from_slice(alloc, &[failing.write])?;
    let mut source = MemorySource::new(Vec::from_slice(alloc, input)?, reads);
    let mut sink = MemorySink::new(alloc, writes);
    let mut world = World::new(alloc)?;
    let status = run(alloc, words, &mut source, &mut sink, disk, &mut world);
    drop(world);
    let written = Vec::from_slice(alloc, sink.bytes())?;
    Ok(Outcome { status, written })
}

/// Replays an input.
pub fn replayed(alloc: Global, input: &[u8]) -> Result<Outcome, Failure> {
    let words = Vec::from_array(alloc, ["replay".to_string(alloc)?])?;
    ran(alloc, &words, input, NOTHING, &mut MemoryDisk::new(alloc)?)
}

/// A status as the data names it: `Done`, `BadInput:3`.
pub fn status_text(alloc: Global, status: Status) -> Result<String, Failure> {
    let text = match status {
        Status::BadInput { place } => format!(in alloc; "BadInput:{place}")?,
        Status::BadFile { place } => format!(in alloc; "BadFile:{place}")?,
        _ => format!(in alloc; "{status:?}")?,
    };
    Ok(text)
}

/// Whether the run ended with this status, and wrote this.
pub fn is_told(alloc: Global, ran: &Outcome, status: &str, want: &[u8]) -> Result<bool, Failure> {
    let ended = status_text(alloc, ran.status)?;
    Ok(ended.as_str() == status && ran.written.as_slice() == want)
}
