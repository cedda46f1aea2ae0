//! Lines of events: those that are none end the run with their number, and the others come to what is told of them.
use super::failure::Failure;
use super::running::{Outcome, is_told, replayed, status_text};
use super::tally::Tally;
use std::alloc::Global;
use std::fs;

/// The events before each line, and what is told of them.
#[derive(Drop)]
struct Front {
    events: Vec<u8>,
    told: Vec<u8>,
    count: u32,
}

/// The front, so many blank lines, and the line.
fn input_of(alloc: Global, front: &Front, blank: u32, line: &str) -> Result<Vec<u8>, Failure> {
    let mut input = Vec::from_slice(alloc, &front.events)?;
    for _ in 0..blank {
        input.push(b'\n')?;
    }
    input.extend_from_slice(line.as_bytes())?;
    input.push(b'\n')?;
    Ok(input)
}

/// Whether the run was done, and told this of the line of that number.
fn is_event(
    alloc: Global,
    front: &Front,
    ran: &Outcome,
    number: u32,
    words: &str,
) -> Result<bool, Failure> {
    let mut want = Vec::from_slice(alloc, &front.told)?;
    let told = format!(in alloc; "{number} {words}\n")?;
    want.extend_from_slice(told.as_str().as_bytes())?;
    let ended = status_text(alloc, ran.status)?;
    Ok(ended.as_str() == "Done" && ran.written.starts_with(&want))
}

/// Whether a line behind so many blank ones comes to these words.
fn comes_to(
    alloc: Global,
    front: &Front,
    blank: u32,
    words: &str,
    line: &str,
) -> Result<bool, Failure> {
    let ran = replayed(alloc, &input_of(alloc, front, blank, line)?)?;
    let number = front.count.saturating_add(blank).saturating_add(1);
    if words == "BadInput" {
        let status = format!(in alloc; "BadInput:{number}")?;
        return is_told(alloc, &ran, status.as_str(), &front.told);
    }
    is_event(alloc, front, &ran, number, words)
}

/// Tries each line of `lines.txt` behind `named.jsonl`, and behind one blank line more than the last.
pub fn try_all(rt: &HostRuntime) -> Result<Tally, Failure> {
    let mut tally = Tally::new();
    let front = Front {
        events: fs::read(rt, "named.jsonl")?,
        told: fs::read(rt, "named.out")?,
        count: 5,
    };
    let text = fs::read_to_string(rt, "lines.txt")?;
    let mut blank = 0u32;
    for case in text.lines() {
        if let Some((words, line)) = case.split_once("\t") {
            let is_right = comes_to(rt.alloc(), &front, blank, words, line)?;
            tally.count(rt, is_right, line)?;
            blank = blank.saturating_add(1);
        }
    }
    Ok(tally)
}
