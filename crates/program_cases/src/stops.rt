//! Disks that stop at each write and sync of a command in turn: each answer tells a transaction that stands.
use super::commands::try_file;
use super::desk::{Desk, disk_of, words_of};
use super::failure::Failure;
use super::running::{NOTHING, is_told, ran};
use super::step::Step;
use super::tally::Tally;
use std::alloc::Global;
use std::fs;
use sync_disk::{Leaves, MemoryDisk};

/// A command that makes three records over a file, and what is shown of it afterwards.
#[derive(Drop)]
struct Case {
    /// Its words.
    words: Vec<String>,
    /// What it reads.
    input: Vec<u8>,
    /// The file.
    file: Vec<u8>,
    /// The first part of the names of the files that have what is shown of none, one, two and three of the records.
    shown: &'static str,
    /// Whether each record comes to the file and is answered by itself, or all three at once.
    each: bool,
    /// Whether the same command over it again makes it whole.
    repeats: bool,
}

/// A stop at a write or sync, and how many of the records were answered before it, and how many stand after the crash.
#[derive(Clone, Copy)]
struct Stop {
    at: u32,
    leaves: Leaves,
    answered: u32,
    stand: u32,
}

/// The command's own sync comes first, and then of each line or frame the write of its records, the sync of that, the write of
/// the open gate, and the sync of that. What was written stands where a crash keeps it, or where it was synced.
fn stop_of(at: u32, leaves: Leaves, records: u32) -> Stop {
    let strokes = at.saturating_sub(2);
    let answered = strokes / 4;
    let opened = match leaves {
        Leaves::Keep => strokes % 4 / 2,
        _ => 0,
    };
    Stop {
        at,
        leaves,
        answered,
        stand: answered.saturating_add(opened).saturating_mul(records),
    }
}

/// What is told of the records that were answered. Between their lines stand blank ones.
fn told(rt: &HostRuntime, case: &Case, stop: Stop) -> Result<Vec<u8>, Failure> {
    let mut text = Vec::new(rt.alloc());
    if case.each {
        for number in 1..=stop.answered as u64 {
            let line = format!(in rt.alloc(); "{} made {}\n", number + number - 1, number + 1)?;
            text.extend_from_slice(line.as_str().as_bytes())?;
        }
    }
    Ok(text)
}

/// Whether what is shown of a disk is that of so many records.
fn is_shown(
    rt: &HostRuntime,
    case: &Case,
    disk: &mut MemoryDisk,
    stand: u32,
) -> Result<bool, Failure> {
    let alloc = rt.alloc();
    let shown = ran(alloc, &words_of(alloc, "show A")?, b"", NOTHING, disk)?;
    let name = case.shown;
    let path = format!(in alloc; "{name}_{stand}.txt")?;
    is_told(alloc, &shown, "Done", &fs::read(rt, path.as_str())?)
}

/// Whether a command whose disk stops there tells what it must, and leaves what must stand. The same command over it again
/// makes an upload whole.
fn is_right(rt: &HostRuntime, case: &Case, stop: Stop) -> Result<bool, Failure> {
    let alloc = rt.alloc();
    let mut disk = disk_of(alloc, &case.file)?;
    disk.arm(stop.at.max(1), stop.leaves);
    let ended = ran(alloc, &case.words, &case.input, NOTHING, &mut disk)?;
    disk.crash();
    let mut right = is_told(alloc, &ended, "DiskFault", &told(rt, case, stop)?)?;
    right &= is_shown(rt, case, &mut disk, stop.stand)?;
    if case.repeats {
        let again = ran(alloc, &case.words, &case.input, NOTHING, &mut disk)?;
        right &= is_told(alloc, &again, "Done", b"\0\0\0\x03\x07\x01\x04")?;
        right &= is_shown(rt, case, &mut disk, 3)?;
    }
    Ok(right)
}

/// Tries each stop of a command.
fn try_case(rt: &HostRuntime, tally: &mut Tally, case: &Case) -> Result<(), Failure> {
    let (last, records) = if case.each { (13, 1) } else { (5, 3) };
    for at in 1..=last {
        for leaves in [Leaves::Drop, Leaves::Torn, Leaves::Keep] {
            let is_right = is_right(rt, case, stop_of(at, leaves, records))?;
            tally.count(rt, is_right, case.shown)?;
        }
    }
    Ok(())
}

/// Whether all three transactions are told where nothing stops; and the upload of them.
fn upload(alloc: Global, desk: &mut Desk, input: &[u8]) -> Result<(bool, Vec<u8>), Failure> {
    let mut commits = Step::new(alloc, "edit A")?;
    commits.input.extend_from_slice(input)?;
    let ran = desk.play(alloc, &commits)?;
    let right = is_told(alloc, &ran, "Done", b"1 made 2\n2 made 3\n3 made 4\n")?;
    let sent = desk.play(alloc, &Step::new(alloc, "send A")?)?;
    Ok((right, sent.written))
}

/// Tries each stop of three transactions of a client.
fn try_commits(
    rt: &HostRuntime,
    tally: &mut Tally,
    desk: &mut Desk,
    each: bool,
) -> Result<(), Failure> {
    let alloc = rt.alloc();
    let path = if each {
        "additions.txt"
    } else {
        "additions_at_once.txt"
    };
    let commits = Case {
        words: words_of(alloc, "edit A")?,
        input: fs::read(rt, path)?,
        file: desk.bytes(alloc, "A")?,
        shown: "shown_client",
        each,
        repeats: false,
    };
    try_case(rt, tally, &commits)
}

/// Tries each stop of three transactions of a client, and of an upload of them, after the steps of `joined.txt`.
pub fn try_all(rt: &HostRuntime) -> Result<Tally, Failure> {
    let alloc = rt.alloc();
    let (mut desk, mut tally) = try_file(rt, "joined.txt")?;
    try_commits(rt, &mut tally, &mut desk, true)?;
    try_commits(rt, &mut tally, &mut desk, false)?;
    let (right, input) = upload(alloc, &mut desk, &fs::read(rt, "additions_at_once.txt")?)?;
    tally.count(rt, right, "three transactions")?;
    let serves = Case {
        words: words_of(alloc, "serve S")?,
        input,
        file: desk.bytes(alloc, "S")?,
        shown: "shown_server",
        each: false,
        repeats: true,
    };
    try_case(rt, &mut tally, &serves)?;
    Ok(tally)
}
