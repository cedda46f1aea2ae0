ghost use Rattle.std.specs.Prelude.{◌≡◌, ◌⊎◌, map, string_bytes};
ghost use Rattle.sync_cli.specs.Replacing.{AsksToReplace};
ghost use Rattle.sync_top.specs.Jobs.{AsksFor};

use super::end::End;
use crate::replacing::{path_to_replace, replace_file};
use file_lock::{LockRefusal, hold};
use lives_heir::keeps_lives;
use std::fs;
use std::io::{BufWriter, Read, Write};
use sync_disk::{Disk, FileDisk, MemoryDisk};
use sync_io::{Status, StdSink, StdSource};
use sync_top::{FileCommand, Job, job_of, run};
use sync_world::World;

/// The greatest length of a file that stands for no records and is made anew, in bytes (docs/FORMATS.md, "The journal").
const SHORT: u64 = 9;

/// How often a command that only reads looks again at a file that it finds bad: a writer may have added a record after its
/// length was told.
pub(crate) const LOOKS_AGAIN: usize = 7;

/// Runs the words over an input, an output and a disk.
fn run_over<I: Read + Drop, O: Write + Drop, D: Disk>(
    rt: &HostRuntime,
    words: &[String],
    input: I,
    output: O,
    disk: &mut D,
) -> Status
    ensures words { result ≡ Status.BadWords → (job : Job) → AsksFor job (map string_bytes words.now) → ⊥ }
    ensures unknown { ((job : Job) → AsksFor job (map string_bytes words.now) → ⊥) → (result ≡ Status.BadWords) ⊎ (result ≡ Status.NoMemory) }
{
    let Ok(mut world) = World::new(rt.alloc()) else {
        return Status::NoMemory;
    };
    let mut source = StdSource::new(input);
    let mut sink = StdSink::new(output);
    run(rt.alloc(), words, &mut source, &mut sink, disk, &mut world)
}

/// Runs the words over the file at a path. Each answer is written at once, so that whoever waits for it can go on.
pub(crate) fn run_over_file<I: Read + Drop, O: Write + Drop>(
    rt: &HostRuntime,
    words: &[String],
    path: &str,
    input: I,
    output: O,
) -> Status
    ensures words { result ≡ Status.BadWords → (job : Job) → AsksFor job (map string_bytes words.now) → ⊥ }
    ensures unknown { ((job : Job) → AsksFor job (map string_bytes words.now) → ⊥) → (result ≡ Status.BadWords) ⊎ (result ≡ Status.NoMemory) }
{
    let Ok(mut disk) = FileDisk::at(rt, rt.alloc(), path) else {
        return Status::NoMemory;
    };
    run_over(rt, words, input, output, &mut disk)
}

/// Runs the words over a disk in memory. The output is gathered to larger pieces.
fn run_over_memory<I: Read + Drop, O: Write + Drop>(
    rt: &HostRuntime,
    words: &[String],
    input: I,
    output: O,
) -> Status
    ensures words { result ≡ Status.BadWords → (job : Job) → AsksFor job (map string_bytes words.now) → ⊥ }
    ensures unknown { ((job : Job) → AsksFor job (map string_bytes words.now) → ⊥) → (result ≡ Status.BadWords) ⊎ (result ≡ Status.NoMemory) }
{
    let Ok(output) = BufWriter::new(rt.alloc(), output) else {
        return Status::NoMemory;
    };
    let Ok(mut disk) = MemoryDisk::new(rt.alloc()) else {
        return Status::NoMemory;
    };
    run_over(rt, words, input, output, &mut disk)
}

/// Whether a command may add records to its file.
fn writes(command: FileCommand) -> bool {
    match command {
        FileCommand::Edit | FileCommand::Take | FileCommand::Serve | FileCommand::Recover => true,
        FileCommand::Send
        | FileCommand::Ask
        | FileCommand::Show
        | FileCommand::Retire { ident: _ }
        | FileCommand::Rescue { after: _ }
        | FileCommand::Trim
        | FileCommand::Shrink
        | FileCommand::Start { id: _ } => false,
    }
}

/// Whether a command leaves what its file says of lives as it is.
fn leaves_lives(command: FileCommand) -> bool {
    matches!(command, FileCommand::Show | FileCommand::Start { id: _ })
}

/// What a file keeps of lives, as far as that could be read.
#[derive(Clone, Copy)]
pub(crate) enum Kept {
    Nothing,
    Lives,
    DiskFault,
    NoMemory,
}

/// What the file at a path keeps of lives.
pub(crate) fn kept_at(rt: &HostRuntime, path: &str) -> Kept {
    if is_short(rt, path) {
        return Kept::Nothing;
    }
    let Ok(disk) = FileDisk::at(rt, rt.alloc(), path) else {
        return Kept::NoMemory;
    };
    match keeps_lives(rt.alloc(), disk) {
        Ok(true) => Kept::Lives,
        Ok(false) => Kept::Nothing,
        Err(Status::NoMemory) => Kept::NoMemory,
        Err(_) => Kept::DiskFault,
    }
}

/// Whether the file is absent, or so short that any command makes it anew.
pub(crate) fn is_short(rt: &HostRuntime, path: &str) -> bool {
    match fs::metadata(rt, path) {
        Ok(told) => told.len() <= SHORT,
        Err(_) => true,
    }
}

/// Runs a command that only reads its file, which another command may be writing. It has written nothing where it finds
/// the file bad, and then looks again.
fn run_reader<O: Write + Drop>(
    rt: &HostRuntime,
    words: &[String],
    path: &str,
    output: &mut O,
) -> Status
    ensures words { result ≡ Status.BadWords → (job : Job) → AsksFor job (map string_bytes words.now) → ⊥ }
{
    for _ in 0..LOOKS_AGAIN {
        let status = run_over_file(rt, words, path, std::io::empty(), &mut *output);
        if !matches!(status, Status::BadFile { .. }) {
            return status;
        }
    }
    run_over_file(rt, words, path, std::io::empty(), output)
}

/// The same, where it leaves what the file says of lives as it is, or the file keeps none.
fn run_reading<O: Write + Drop>(
    rt: &HostRuntime,
    words: &[String],
    command: FileCommand,
    path: &str,
    output: &mut O,
) -> End
    ensures words { result ≡ End.Ran Status.BadWords → (job : Job) → AsksFor job (map string_bytes words.now) → ⊥ }
{
    if leaves_lives(command) {
        return End::Ran(run_reader(rt, words, path, output));
    }
    match kept_at(rt, path) {
        Kept::Nothing => End::Ran(run_reader(rt, words, path, output)),
        Kept::Lives => End::KeepsLives,
        Kept::DiskFault => End::Ran(Status::DiskFault),
        Kept::NoMemory => End::Ran(Status::NoMemory),
    }
}

/// Runs a command over the file at a path, where that keeps no lives.
fn run_without_lives<I: Read + Drop, O: Write + Drop>(
    rt: &HostRuntime,
    words: &[String],
    path: &str,
    input: I,
    output: O,
) -> End
    ensures words { result ≡ End.Ran Status.BadWords → (job : Job) → AsksFor job (map string_bytes words.now) → ⊥ }
{
    match kept_at(rt, path) {
        Kept::Nothing => End::Ran(run_over_file(rt, words, path, input, output)),
        Kept::Lives => End::KeepsLives,
        Kept::DiskFault => End::Ran(Status::DiskFault),
        Kept::NoMemory => End::Ran(Status::NoMemory),
    }
}

/// Runs a command that holds its file from opening to its end, so that no other command writes to it meanwhile.
fn run_holding<I: Read + Drop, O: Write + Drop>(
    rt: &HostRuntime,
    words: &[String],
    path: &str,
    input: I,
    output: O,
) -> End
    ensures words { result ≡ End.Ran Status.BadWords → (job : Job) → AsksFor job (map string_bytes words.now) → ⊥ }
{
    match hold(rt, path) {
        Ok(held) => {
            let end = run_without_lives(rt, words, path, input, output);
            drop(held);
            end
        }
        Err(LockRefusal::Busy) => End::Busy,
        Err(LockRefusal::Failed) => End::Ran(Status::DiskFault),
    }
}

/// Runs the words of a command that `run` knows, over the file that they name, or over a disk in memory where they name none.
fn run_command<I: Read + Drop, O: Write + Drop>(
    rt: &HostRuntime,
    words: &[String],
    input: I,
    output: O,
) -> End
    ensures words { result ≡ End.Ran Status.BadWords → (job : Job) → AsksFor job (map string_bytes words.now) → ⊥ }
    ensures unknown { ((job : Job) → AsksFor job (map string_bytes words.now) → ⊥) → (result ≡ End.Ran Status.BadWords) ⊎ (result ≡ End.Ran Status.NoMemory) }
{
    match (job_of(words), words) {
        (Some(Job::File { command }), [_, path, ..]) => {
            let path = path.as_str();
            if writes(command) || is_short(rt, path) {
                return run_holding(rt, words, path, input, output);
            }
            let mut output = output;
            run_reading(rt, words, command, path, &mut output)
        }
        _ => End::Ran(run_over_memory(rt, words, input, output)),
    }
}

/// Runs the words of a command without a life (docs/FORMATS.md, "Commands"). Words that are no command are told so, and no others are, unless memory runs
/// out. One command at a time writes to a file: where another holds it, that is `Busy`.
pub fn run_words<I: Read + Drop, O: Write + Drop>(
    rt: &HostRuntime,
    words: &[String],
    input: I,
    output: O,
) -> End
    ensures words { result ≡ End.Ran Status.BadWords → (job : Job) → AsksFor job (map string_bytes words.now) → ⊥ }
    ensures unknown { ((job : Job) → AsksFor job (map string_bytes words.now) → ⊥) → (AsksToReplace (map string_bytes words.now) → ⊥)
        → (result ≡ End.Ran Status.BadWords) ⊎ (result ≡ End.Ran Status.NoMemory) }
{
    match path_to_replace(words) {
        // (the first two words ask for the new file)
        Some(path) => replace_file(rt, &words[..2], path),
        None => run_command(rt, words, input, output),
    }
}
