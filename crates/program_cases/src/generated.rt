//! Generated exchanges: whatever is drawn, nothing is refused, all that was made is in the history, and all clients agree.
use super::desk::words_of;
use super::failure::{Failure, number};
use super::running::{NOTHING, ran};
use super::tally::Tally;
use std::alloc::Global;
use std::fs;
use sync_disk::MemoryDisk;
use sync_io::Status;

/// The number behind the word in the line that it begins.
fn told(summary: &str, word: &str) -> Option<u64> {
    summary.lines().find_map(|line| {
        line.strip_prefix(word)?
            .strip_prefix(" ")?
            .parse::<u64>()
            .ok()
    })
}

/// Whether the summary of that seed and count has six lines, and tells that all is well.
fn is_of_equals(summary: &str, seed: u64, count: u64) -> bool {
    let made = told(summary, "made");
    told(summary, "seed") == Some(seed)
        && told(summary, "turns") == Some(count)
        && made.is_some()
        && told(summary, "history") == made
        && told(summary, "refused") == Some(0)
        && told(summary, "equal") == Some(8)
        && summary.lines().count() == 6
}

/// Whether an exchange of so many turns is.
fn is_right(alloc: Global, seed: u64, count: u64) -> Result<bool, Failure> {
    let words = format!(in alloc; "gen {seed} {count}")?;
    let words = words_of(alloc, words.as_str())?;
    let disk = &mut MemoryDisk::new(alloc)?;
    let outcome = ran(alloc, &words, b"", NOTHING, disk)?;
    let summary = str::from_utf8(&outcome.written).ok().ok_or(Failure::Data)?;
    Ok(outcome.status == Status::Done && is_of_equals(summary, seed, count))
}

/// Tries each line of `generated.txt`: a seed and a count.
pub fn try_all(rt: &HostRuntime) -> Result<Tally, Failure> {
    let mut tally = Tally::new();
    let text = fs::read_to_string(rt, "generated.txt")?;
    for line in text.lines() {
        let (seed, count) = line.split_once(" ").ok_or(Failure::Data)?;
        let (seed, count) = (number(seed)? as u64, number(count)? as u64);
        tally.count(rt, is_right(rt.alloc(), seed, count)?, line)?;
    }
    Ok(tally)
}
