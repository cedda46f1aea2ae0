//! Exchanges: what a replay of their events prints, byte for byte.
use super::failure::{Failure, number};
use super::running::{is_told, replayed};
use super::tally::Tally;
use std::fs;

/// The file `NAME.jsonl`, or `NAME.out`.
fn file(rt: &HostRuntime, name: &str, end: &str) -> Result<Vec<u8>, Failure> {
    let path = format!(in rt.alloc(); "{name}.{end}")?;
    Ok(fs::read(rt, path.as_str())?)
}

/// Puts so many of a file behind an input.
fn put_file(rt: &HostRuntime, input: &mut Vec<u8>, name: &str, count: u32) -> Result<(), Failure> {
    let bytes = file(rt, name, "jsonl")?;
    for _ in 0..count {
        input.extend_from_slice(&bytes)?;
    }
    Ok(())
}

/// Puts the event by which the disk of a node stops behind an input.
fn put_stop(rt: &HostRuntime, input: &mut Vec<u8>, node: &str, stop: &str) -> Result<(), Failure> {
    let (at, leaves) = stop.split_once(":").ok_or(Failure::Data)?;
    let line = format!(in rt.alloc();
        "{{\"event\":\"stop\",\"node\":\"{node}\",\"at\":{at},\"leaves\":\"{leaves}\"}}\n"
    )?;
    input.extend_from_slice(line.as_str().as_bytes())?;
    Ok(())
}

/// Puts a part behind an input: `NAME`, `NAME*COUNT` or `NODE@AT:LEAVES`.
fn put_part(rt: &HostRuntime, input: &mut Vec<u8>, part: &str) -> Result<(), Failure> {
    if let Some((node, stop)) = part.split_once("@") {
        return put_stop(rt, input, node, stop);
    }
    match part.split_once("*") {
        Some((name, count)) => put_file(rt, input, name, number(count)?),
        None => put_file(rt, input, part, 1),
    }
}

/// Whether an exchange prints what it must: `NAME STATUS PART..`.
fn is_right(rt: &HostRuntime, line: &str) -> Result<bool, Failure> {
    let mut words = line.split(" ");
    let (Some(name), Some(status)) = (words.next(), words.next()) else {
        return Err(Failure::Data);
    };
    let mut input = Vec::new(rt.alloc());
    for part in words {
        put_part(rt, &mut input, part)?;
    }
    let ran = replayed(rt.alloc(), &input)?;
    is_told(rt.alloc(), &ran, status, &file(rt, name, "out")?)
}

/// Tries each exchange of `exchanges.txt`.
pub fn try_all(rt: &HostRuntime) -> Result<Tally, Failure> {
    let mut tally = Tally::new();
    let text = fs::read_to_string(rt, "exchanges.txt")?;
    for line in text.lines() {
        if !line.is_empty() && !line.starts_with("#") {
            tally.count(rt, is_right(rt, line)?, line)?;
        }
    }
    Ok(tally)
}
