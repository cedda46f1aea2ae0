//! What is drawn from a seed: numbers, turns and edits.
use super::failure::{Failure, number};
use super::tally::Tally;
use std::alloc::Global;
use std::{fs, mem};
use sync_data::{Instr, Name};
use sync_disk::MemoryDisk;
use sync_edits::{Event, event_of};
use sync_gen::{CLIENTS, Gen, Turn, TurnKind, client_id, client_name, first_edits};
use sync_io::{MemorySink, MemorySource};
use sync_top::run;
use sync_world::World;

/// A turn as the data has it: the client, what it does, and of an edit the time.
fn turn_text(alloc: Global, turn: Turn) -> Result<String, Failure> {
    let client = turn.client;
    let text = match turn.kind {
        TurnKind::Edit { ms } => format!(in alloc; "{client} Edit {ms}")?,
        TurnKind::Push => format!(in alloc; "{client} Push")?,
        TurnKind::Pull => format!(in alloc; "{client} Pull")?,
        TurnKind::Restart => format!(in alloc; "{client} Restart")?,
    };
    Ok(text)
}

/// Whether these turns are the first ones of the seed.
fn are_turns(alloc: Global, seed: u64, turns: &str) -> Result<bool, Failure> {
    let mut generator = Gen::new(seed);
    let mut right = true;
    let mut turn = 0u32;
    for want in turns.split(", ") {
        turn = turn.saturating_add(1);
        let drawn = turn_text(alloc, generator.turn(turn))?;
        right &= drawn.as_str() == want;
    }
    Ok(right)
}

/// Whether these numbers are the first ones of the seed, each behind its bound.
fn are_draws(seed: u64, draws: &str) -> Result<bool, Failure> {
    let mut generator = Gen::new(seed);
    let mut right = true;
    for draw in draws.split(", ") {
        let (bound, want) = draw.split_once(" ").ok_or(Failure::Data)?;
        right &= generator.draw(number(bound)?.max(1)) == number(want)?;
    }
    Ok(right)
}

/// The edits of an event.
fn edits_of(alloc: Global, line: &str) -> Result<Vec<Instr>, Failure> {
    match event_of(alloc, line.as_bytes()) {
        Ok(Event::Edit { edits, .. }) => Ok(edits.into_vec()),
        _ => Err(Failure::Data),
    }
}

/// The exchange after these events.
fn world_after(alloc: Global, events: Vec<u8>) -> Result<World, Failure> {
    let words = Vec::from_array(alloc, ["replay".to_string(alloc)?])?;
    let mut disk = MemoryDisk::new(alloc)?;
    let mut world = World::new(alloc)?;
    let mut source = MemorySource::new(events, Vec::new(alloc));
    let mut sink = MemorySink::new(alloc, Vec::new(alloc));
    run(alloc, &words, &mut source, &mut sink, &mut disk, &mut world);
    Ok(world)
}

/// Whether the edit of an event is the first one of the seed, for what client A holds.
fn is_edit(alloc: Global, world: &World, seed: u64, line: &str) -> Result<bool, Failure> {
    let name = Name::new("A").ok().ok_or(Failure::Data)?;
    let client = world.client(&name).ok_or(Failure::Data)?;
    let edits = edits_of(alloc, line)?;
    let drawn = Gen::new(seed).edit(alloc, client.objects())?;
    Ok(edits.as_slice() == [drawn].as_slice())
}

/// Whether the edits of an event are the first transaction.
fn is_first(alloc: Global, line: &str) -> Result<bool, Failure> {
    let first = first_edits(alloc)?;
    Ok(edits_of(alloc, line)?.as_slice() == first.as_slice())
}

/// Whether the client of that number has that name and uuid.
fn is_client(alloc: Global, client: u32, text: &str) -> Result<bool, Failure> {
    if !(1..=CLIENTS).contains(&client) {
        return Err(Failure::Data);
    }
    let (name, id) = text.split_once(" ").ok_or(Failure::Data)?;
    let digits = hex::encode(alloc, client_id(client))?;
    Ok(client_name(client).text() == name && digits.as_str() == id)
}

/// Whether a line of `drawn.txt` is right: the kind, the seed, and what is drawn.
fn is_right(rt: &HostRuntime, world: &World, line: &str) -> Result<bool, Failure> {
    let alloc = rt.alloc();
    let (kind, rest) = line.split_once(" ").ok_or(Failure::Data)?;
    let (seed, drawn) = rest.split_once(": ").ok_or(Failure::Data)?;
    let number = number(seed)?;
    let seed = number as u64;
    match kind {
        "client" => is_client(alloc, number, drawn),
        "draws" => are_draws(seed, drawn),
        "turns" => are_turns(alloc, seed, drawn),
        "edit" => is_edit(alloc, world, seed, drawn),
        "first" => is_first(alloc, drawn),
        _ => Err(Failure::Data),
    }
}

/// Tries each line of `drawn.txt`. A line `after NAME` says after which events the edits behind it are drawn.
pub fn try_all(rt: &HostRuntime) -> Result<Tally, Failure> {
    let mut world = World::new(rt.alloc())?;
    try_each(rt, &mut world)
}

fn try_each(rt: &HostRuntime, world: &mut World) -> Result<Tally, Failure> {
    let mut tally = Tally::new();
    let text = fs::read_to_string(rt, "drawn.txt")?;
    for line in text.lines() {
        if let Some(path) = line.strip_prefix("after ") {
            let after = world_after(rt.alloc(), fs::read(rt, path)?)?;
            drop(mem::replace(world, after));
        } else if !line.is_empty() && !line.starts_with("#") {
            tally.count(rt, is_right(rt, world, line)?, line)?;
        }
    }
    Ok(tally)
}
