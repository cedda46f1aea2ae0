//! That long blocks of list instructions cross as each instruction of one meets each of the other, where there is memory for a lane.
use list_blocks::cross_blocks;
use std::alloc::Global;
use sync_base::{
    Between, CellName, Changeset, Inside, Instr, Key, ListErase, ListInsert, ListUpdate, Name,
    Value,
};
use sync_transform::cross_sets;

fn cell() -> Option<CellName> {
    Some(CellName {
        table: Name::new("item").ok()?,
        key: Key::Int(1),
        column: Name::new("steps").ok()?,
    })
}

/// A list instruction drawn by that number, on a list of that length; and how long the list is then.
fn drawn(number: u32, length: u32) -> Option<(Instr, u32)> {
    let cell = cell()?;
    let value = Value::Int(number as i64);
    let place = (number >> 8) % length.max(1);
    match (number >> 4) % 4 {
        0 => {
            let spot = Inside::new(place, length).ok()?;
            Some((
                Instr::ListErase(ListErase { cell, spot }),
                length.saturating_sub(1),
            ))
        }
        1 => {
            let spot = Inside::new(place, length).ok()?;
            Some((Instr::ListUpdate(ListUpdate { cell, spot, value }), length))
        }
        _ => {
            let spot = Between::new(place, length).ok()?;
            Some((
                Instr::ListInsert(ListInsert { cell, spot, value }),
                length.saturating_add(1),
            ))
        }
    }
}

/// So many of them, one after another.
fn block(alloc: Global, seed: u32, ms: u64, count: usize) -> Option<Changeset> {
    let mut instrs = Vec::new(alloc);
    let mut length = 50;
    let mut number = seed;
    for _ in 0..count {
        number = number.wrapping_mul(1_664_525).wrapping_add(1_013_904_223);
        let (instr, longer) = drawn(number, length)?;
        instrs.push(instr).ok()?;
        length = longer;
    }
    Changeset::checked(ms, instrs).ok()
}

/// Whether two blocks cross by a lane as they do one by one. None where they don't cross, or out of memory.
fn agree(alloc: Global, seed: u32) -> Option<bool> {
    let left = block(alloc, seed, 5, 70)?;
    let right = block(alloc, seed.wrapping_add(100), 5, 80)?;
    let left_copy = left.copy().ok()?;
    let right_copy = right.copy().ok()?;
    let (left_at_once, right_at_once) = cross_blocks(alloc, left, 1, right, 2).ok()?;
    let (left_by_pairs, right_by_pairs) = cross_sets(left_copy, 1, right_copy, 2).ok()?;
    Some(left_at_once == left_by_pairs && right_at_once == right_by_pairs)
}

/// Whether all drawn blocks cross as their instructions meet.
pub(crate) fn blocks_cross_as_their_instructions_meet(alloc: Global) -> bool {
    let mut all = true;
    for seed in 0..8 {
        all = agree(alloc, seed) == Some(true) && all;
    }
    all
}
