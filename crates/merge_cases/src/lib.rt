//! Cases of merging, each a line of a file, and what must come of it: lists of instructions that cross, and stores that
//! take instructions. The files say at their heads how their lines are read. Each case that isn't as it says is printed.
//!
//! And what no clause of the crates below says and no file can: how a list in blocks treats its items, also where memory is refused, what
//! an index passes over, that lanes and regions are made where there is memory, the order of values of different kinds, and that a
//! toy meets the bounds of the theory and of the model.
#![tactic(auto)]

mod answer;
mod block_lists;
mod blocks;
mod crossing;
mod data;
mod drawn;
mod exchanged_toys;
mod failure;
mod fields;
mod indexes;
mod merged_toys;
mod mixed;
mod regions;
mod rivals;
mod sides;
mod store;

pub use block_lists::each_item_lives_while_its_list_has_it;
pub use exchanged_toys::a_toy_can_be_exchanged;
use failure::Failure;
pub use merged_toys::a_toy_can_be_merged;
use std::alloc::Global;
use std::fs;
use store::Base;

/// Prints how many cases there are, and each that doesn't hold. Whether all do.
pub fn try_all(rt: &HostRuntime) -> bool {
    match run(rt) {
        Ok(all) => all,
        Err(failure) => {
            let _ = eprintln!(rt; "merge_cases: {failure:?}");
            false
        }
    }
}

fn run(rt: &HostRuntime) -> Result<bool, Failure> {
    let crossings = crossings_hold(rt, "merges/crossings.txt")?;
    let drawn = crossings_hold(rt, "merges/drawn.txt")?;
    let stores = stores_hold(rt, "merges/stores.txt")?;
    Ok(crossings & drawn & stores)
}

/// Whether a line is a case, and no heading.
fn is_case(line: &str) -> bool {
    !line.is_empty() && !line.starts_with('#')
}

fn crossings_hold(rt: &HostRuntime, path: &str) -> Result<bool, Failure> {
    let text = fs::read_to_string(rt, path)?;
    let mut count = 0u64;
    let mut all = true;
    for (place, line) in text.as_str().lines().enumerate() {
        if is_case(line) {
            count = count.saturating_add(1);
            let holds = crossing::holds(rt.alloc(), line);
            all &= told(rt, path, place, holds)?;
        }
    }
    println!(rt; "{path}: {count} cases")?;
    Ok(all)
}

fn stores_hold(rt: &HostRuntime, path: &str) -> Result<bool, Failure> {
    let text = fs::read_to_string(rt, path)?;
    let mut base = Base::empty(rt.alloc())?;
    let mut count = 0u64;
    let mut all = true;
    for (place, line) in text.as_str().lines().enumerate() {
        if is_case(line) {
            count = count.saturating_add(1);
            let holds = store::holds(&mut base, line);
            all &= told(rt, path, place, holds)?;
        }
    }
    println!(rt; "{path}: {count} cases")?;
    Ok(all)
}

/// Whether a case holds. One that doesn't is printed.
fn told(
    rt: &HostRuntime,
    path: &str,
    place: usize,
    holds: Result<bool, Failure>,
) -> Result<bool, Failure> {
    let number = place.saturating_add(1);
    match holds {
        Ok(true) => return Ok(true),
        Ok(false) => println!(rt; "{path}: line {number} doesn't hold")?,
        Err(failure) => println!(rt; "{path}: line {number}: {failure:?}")?,
    }
    Ok(false)
}

/// Each case of no file by its name, and whether it comes out as it must.
pub fn cases(alloc: Global) -> [(&'static str, bool); 10] {
    [
        (
            "blocks cross as their instructions meet",
            blocks::blocks_cross_as_their_instructions_meet(alloc),
        ),
        (
            "short drawn changesets cross as their instructions meet",
            drawn::short_ones_cross_as_their_instructions_meet(alloc),
        ),
        (
            "long drawn changesets cross as their instructions meet",
            drawn::long_ones_cross_as_their_instructions_meet(alloc),
        ),
        (
            "orders are of kinds and then of parts",
            data::orders_are_of_kinds_and_then_of_parts(alloc),
        ),
        (
            "each item lives while its list has it",
            block_lists::each_item_lives_while_its_list_has_it(alloc),
        ),
        (
            "a list grows and shrinks",
            block_lists::a_list_grows_and_shrinks(alloc),
        ),
        (
            "an index says what may touch its list",
            indexes::an_index_says_what_may_touch_its_list(alloc),
        ),
        (
            "lists at unmarked spots are passed over",
            indexes::lists_at_unmarked_spots_are_passed_over(alloc),
        ),
        ("regions do as a lane", regions::regions_do_as_a_lane(alloc)),
        (
            "each entry meets its rival",
            rivals::each_entry_meets_its_rival(alloc),
        ),
    ]
}
