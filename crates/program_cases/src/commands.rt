//! The commands over files, step by step.
use super::desk::Desk;
use super::failure::{Failure, number};
use super::running::{Failing, NOTHING, Outcome, is_told};
use super::step::Step;
use super::tally::Tally;
use std::alloc::Global;
use std::fs;

/// Whether the command adds records, and so writes an answer for each of its items.
fn adds(step: &Step) -> bool {
    let commands = step.commands.as_str();
    ["edit", "take", "serve", "recover"]
        .iter()
        .any(|word| commands.starts_with(*word))
}

/// Whether what was written before a fault is a part of the whole from its front: nothing before the first read or write; all
/// before the last flush; and of a command that writes all at once nothing where the disk failed.
fn is_part(step: &Step, outcome: &Outcome, failing: Failing, calls: Failing) -> bool {
    let none = outcome.written.is_empty();
    let all = outcome.written.len() == step.want.len();
    let right = if failing.read > 0 {
        none == (failing.read == 1)
    } else if failing.write > 0 {
        none == (failing.write == 1) && all == (failing.write == calls.write)
    } else {
        none || adds(step)
    };
    right && step.want.starts_with(&outcome.written)
}

/// Whether a run in which this call fails ends by its fault, and writes what it may.
fn fails(
    alloc: Global,
    desk: &mut Desk,
    step: &Step,
    failing: Failing,
    calls: Failing,
    status: &str,
) -> Result<bool, Failure> {
    let outcome = desk.run_copy(alloc, step, &step.input, failing)?;
    let right = is_part(step, &outcome, failing, calls);
    Ok(is_told(alloc, &outcome, status, &outcome.written)? && right)
}

/// Whether each of so many reads, writes and calls of the disk ends the step by its fault.
fn each_call_fails(
    alloc: Global,
    desk: &mut Desk,
    step: &Step,
    calls: Failing,
) -> Result<bool, Failure> {
    let mut right = true;
    for read in 1..=calls.read {
        let failing = Failing { read, ..NOTHING };
        right &= fails(alloc, desk, step, failing, calls, "ReadFault")?;
    }
    for write in 1..=calls.write {
        let failing = Failing { write, ..NOTHING };
        right &= fails(alloc, desk, step, failing, calls, "WriteFault")?;
    }
    for stroke in 1..=calls.stroke {
        let failing = Failing { stroke, ..NOTHING };
        right &= fails(alloc, desk, step, failing, calls, "DiskFault")?;
    }
    Ok(right)
}

/// The same, and whether the next call of each doesn't come.
fn each_fails(
    alloc: Global,
    desk: &mut Desk,
    step: &Step,
    calls: Failing,
) -> Result<bool, Failure> {
    let right = each_call_fails(alloc, desk, step, calls)?;
    let behind = Failing {
        read: calls.read.saturating_add(1),
        write: calls.write.saturating_add(1),
        stroke: calls.stroke.saturating_add(1),
    };
    let outcome = desk.run_copy(alloc, step, &step.input, behind)?;
    Ok(is_told(alloc, &outcome, "Done", &step.want)? && right)
}

/// The numbers of calls: of the source, of the sink and of the disk.
fn calls_of(text: &str) -> Result<Failing, Failure> {
    let mut words = text.split(" ");
    let (Some(read), Some(write), Some(stroke)) = (words.next(), words.next(), words.next()) else {
        return Err(Failure::Data);
    };
    Ok(Failing {
        read: number(read)? as u64,
        write: number(write)? as u64,
        stroke: number(stroke)? as u64,
    })
}

/// The input of a step up to an end in its last frame, which is as long as it says, or as long as it is then.
fn cut(alloc: Global, step: &Step, end: usize, shortened: bool) -> Result<Vec<u8>, Failure> {
    let front = step.input.get(..step.last).ok_or(Failure::Data)?;
    let part = step.input.get(step.last..end).ok_or(Failure::Data)?;
    let mut input = Vec::from_slice(alloc, front)?;
    match part {
        [_, _, _, _, message @ ..] if shortened => {
            let length = u32::try_from(message.len()).ok().ok_or(Failure::Data)?;
            input.extend_from_slice(&length.to_be_bytes())?;
            input.extend_from_slice(message)?;
        }
        _ => input.extend_from_slice(part)?,
    }
    Ok(input)
}

/// Whether a step whose last frame ends early, at each of its bytes, ends with this status and writes what it must.
fn each_end_is_told(
    alloc: Global,
    desk: &mut Desk,
    step: &Step,
    status: &str,
) -> Result<bool, Failure> {
    let mut right = true;
    for end in step.last.saturating_add(1)..step.input.len() {
        for shortened in [false, true] {
            let input = cut(alloc, step, end, shortened)?;
            let ran = desk.run_copy(alloc, step, &input, NOTHING)?;
            right &= is_told(alloc, &ran, status, &step.want)?;
        }
    }
    Ok(right)
}

/// The steps that are tried, in a case.
#[derive(Drop)]
struct Trial {
    desk: Desk,
    step: Step,
    tally: Tally,
}

impl Trial {
    fn new(alloc: Global) -> Result<Trial, Failure> {
        Ok(Trial {
            desk: Desk::new(alloc),
            step: Step::new(alloc, "")?,
            tally: Tally::new(),
        })
    }

    /// Ends a step: whether it came out as it must.
    fn end(&mut self, alloc: Global, mark: &str, rest: &str) -> Result<bool, Failure> {
        let step = &self.step;
        match mark {
            "=" => {
                let ran = self.desk.play(alloc, step)?;
                is_told(alloc, &ran, rest, &step.want)
            }
            "?" => {
                let ran = self.desk.play(alloc, step)?;
                is_told(alloc, &ran, rest, &ran.written)
            }
            "!" => each_fails(alloc, &mut self.desk, step, calls_of(rest)?),
            "%" => each_end_is_told(alloc, &mut self.desk, step, rest),
            _ => Err(Failure::Data),
        }
    }

    /// Takes a line of the steps.
    fn take(&mut self, rt: &HostRuntime, line: &str) -> Result<(), Failure> {
        let Some((mark, rest)) = line.split_once(" ") else {
            return Ok(());
        };
        let alloc = rt.alloc();
        match mark {
            "#" => self.desk = Desk::new(alloc),
            "=" | "?" | "!" | "%" => {
                let is_right = self.end(alloc, mark, rest)?;
                self.tally.count(rt, is_right, self.step.commands.as_str())?;
            }
            _ => self.step.take(alloc, mark, rest)?,
        }
        Ok(())
    }
}

/// Tries each step of a file, and leaves the files of its last case.
pub fn try_file(rt: &HostRuntime, path: &str) -> Result<(Desk, Tally), Failure> {
    let mut trial = Trial::new(rt.alloc())?;
    let text = fs::read_to_string(rt, path)?;
    for line in text.lines() {
        trial.take(rt, line)?;
    }
    Ok((trial.desk, trial.tally))
}

/// Tries each step of `commands.txt`.
pub fn try_all(rt: &HostRuntime) -> Result<Tally, Failure> {
    let (_, tally) = try_file(rt, "commands.txt")?;
    Ok(tally)
}
