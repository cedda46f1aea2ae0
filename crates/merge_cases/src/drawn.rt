//! That drawn changesets of all forms of instructions over few objects cross as their instructions meet, short ones and long ones.

use crate::mixed::changeset;
use long_sets::cross_long;
use std::alloc::Global;
use sync_base::{Changeset, Ident};
use sync_transform::{CrossMismatch, cross_sets};

/// So many short changesets cross as many others.
const SHORT: u32 = 20_000;

/// So many long ones.
const LONG: u32 = 100;

/// Of so many crossings one is of sides that had not the same list, so that they mismatch.
const APART: u32 = 16;

/// The client of the right changeset.
const RIGHT: Ident = 2;

type Crossed = Result<(Changeset, Changeset), CrossMismatch>;

fn same(one: &Crossed, other: &Crossed) -> bool {
    match one {
        Ok((left, right)) => match other {
            Ok((also_left, also_right)) => *left == *also_left && *right == *also_right,
            Err(_) => false,
        },
        Err(stuck) => match other {
            Ok(_) => false,
            Err(also) => *stuck == *also,
        },
    }
}

/// A number drawn by another, below a third.
fn number_of(seed: u32, below: u32) -> u32 {
    (seed.wrapping_mul(2_654_435_769) >> 8) % below.max(1)
}

/// Whether two changesets of so many drawn instructions cross as each of one meets each of the other, and mismatch where they have to.
/// None out of memory.
fn agree(alloc: Global, seed: u32, left_count: u32, right_count: u32) -> Option<bool> {
    let is_apart = seed % APART == 0;
    let left_ident: Ident = if seed % 2 == 0 { 1 } else { 3 };
    let left_ms = (seed % 3).saturating_add(4) as u64;
    let right_seed = seed.wrapping_add(0x8000_0000);
    let left = changeset(alloc, seed, left_ms, left_count, 6)?;
    let right = changeset(
        alloc,
        right_seed,
        5,
        right_count,
        if is_apart { 7 } else { 6 },
    )?;
    let left_copy = left.copy().ok()?;
    let right_copy = right.copy().ok()?;
    if left_ident == RIGHT {
        return None;
    }
    let at_once = cross_long(alloc, left, left_ident, right, RIGHT);
    let by_pairs = cross_sets(left_copy, left_ident, right_copy, RIGHT);
    Some(same(&at_once, &by_pairs) && (is_apart || by_pairs.is_ok()))
}

/// Whether short drawn changesets, of one to six instructions, cross as their instructions meet.
pub(crate) fn short_ones_cross_as_their_instructions_meet(alloc: Global) -> bool {
    let mut all = true;
    for seed in 0..SHORT {
        let left = number_of(seed, 6).saturating_add(1);
        let right = number_of(seed.wrapping_add(SHORT), 6).saturating_add(1);
        all = agree(alloc, seed, left, right) == Some(true) && all;
    }
    all
}

/// Whether long ones, of 33 to 120 instructions, do.
pub(crate) fn long_ones_cross_as_their_instructions_meet(alloc: Global) -> bool {
    let mut all = true;
    for seed in 0..LONG {
        let left = number_of(seed, 88).saturating_add(33);
        let right = number_of(seed.wrapping_add(LONG), 88).saturating_add(33);
        all = agree(alloc, seed, left, right) == Some(true) && all;
    }
    all
}
