//! The program on worked cases: `trials/data` has what it reads and what must come of it, taken from the formats and rules and never
//! from its own answers. Prints each case that comes out otherwise, and how many there are of each kind.
#![tactic(auto)]

mod commands;
mod desk;
mod drawn;
mod exchanges;
mod failure;
mod generated;
mod host;
mod lines;
mod running;
mod step;
mod stops;
mod tally;
mod words;

use self::failure::Failure;
use self::tally::tell;

fn try_kinds(rt: &HostRuntime) -> Result<(), Failure> {
    tell(rt, "exchanges", exchanges::try_all(rt)?)?;
    tell(rt, "lines", lines::try_all(rt)?)?;
    tell(rt, "steps of commands", commands::try_all(rt)?)?;
    tell(rt, "stops in commands", stops::try_all(rt)?)?;
    tell(rt, "words", words::try_all(rt)?)?;
    tell(rt, "commands over files of the host", host::try_all(rt)?)?;
    tell(rt, "generated exchanges", generated::try_all(rt)?)?;
    tell(rt, "turns and edits that are drawn", drawn::try_all(rt)?)
}

/// Prints how many cases there are of each kind, and each that comes out otherwise. Whether all could be tried.
pub fn try_all(rt: &HostRuntime) -> bool {
    try_kinds(rt).is_ok()
}
