//! Worked cases of the formats of docs/FORMATS.md: each line of a file of `trials/data/formats` is one, with what must come of it.
#![tactic(auto)]

mod bytes;
mod changesets;
mod failure;
mod inputs;
mod journals;
mod letters;
mod lines;
mod lives;
mod messages;
mod notes;
mod numbers;
mod records;
mod strings;
mod tables;
mod values;

use failure::Failure;
use std::alloc::Global;
use std::fs;

/// What a file's lines are cases of.
#[derive(Clone, Copy)]
enum Topic {
    Changesets,
    Inputs,
    Journals,
    Letters,
    Lines,
    Messages,
    Notes,
    Numbers,
    Records,
    Strings,
    Values,
}

const FILES: [(&str, Topic); 11] = [
    ("formats/changesets.txt", Topic::Changesets),
    ("formats/inputs.txt", Topic::Inputs),
    ("formats/journals.txt", Topic::Journals),
    ("formats/letters.txt", Topic::Letters),
    ("formats/lines.txt", Topic::Lines),
    ("formats/messages.txt", Topic::Messages),
    ("formats/notes.txt", Topic::Notes),
    ("formats/numbers.txt", Topic::Numbers),
    ("formats/records.txt", Topic::Records),
    ("formats/strings.txt", Topic::Strings),
    ("formats/values.txt", Topic::Values),
];

/// Whether what a line says comes of it. Its columns are parted by tabs, and the first says which case it is.
fn holds(alloc: Global, topic: Topic, line: &str) -> Result<bool, Failure> {
    let (word, rest) = line.split_once('\t').ok_or(Failure::Line)?;
    match topic {
        Topic::Changesets => changesets::holds(alloc, word, rest),
        Topic::Inputs => inputs::holds(alloc, word, rest),
        Topic::Journals => journals::holds(alloc, word, rest),
        Topic::Letters => letters::holds(alloc, word, rest),
        Topic::Lines => lines::holds(alloc, word, rest),
        Topic::Messages => messages::holds(alloc, word, rest),
        Topic::Notes => notes::holds(alloc, word, rest),
        Topic::Numbers => numbers::holds(alloc, word, rest),
        Topic::Records => records::holds(alloc, word, rest),
        Topic::Strings => strings::holds(alloc, word, rest),
        Topic::Values => values::holds(alloc, word, rest),
    }
}

/// Prints each line of a file that doesn't hold, and how many do. A line that begins with `#` says what follows it.
fn run(rt: &HostRuntime, name: &str, topic: Topic) -> Result<(), Failure> {
    let text = fs::read_to_string(rt, name)?;
    let mut count = 0u64;
    for line in text.as_str().split('\n') {
        if line.is_empty() || line.starts_with('#') {
            continue;
        }
        match holds(rt.alloc(), topic, line) {
            Ok(true) => count = count.saturating_add(1),
            Ok(false) => println!(rt; "{name}: not so: {line}")?,
            Err(failure) => println!(rt; "{name}: {failure:?}: {line}")?,
        }
    }
    println!(rt; "{name}: {count} cases hold")?;
    Ok(())
}

/// Prints how many cases of each file hold, and each line that doesn't. Whether all files were read.
pub fn try_all(rt: &HostRuntime) -> bool {
    let mut all = true;
    for (name, topic) in FILES {
        all &= run(rt, name, topic).is_ok();
    }
    all
}
