//! Two regions become one.
ghost use Rattle.std.specs.Prelude.{◌≡◌, ◌+◌, ◌<◌, ◌^◌, Some, None, IfOk, ◌⊎◌, length, slice_get};
ghost use Rattle.sync_base.specs.Rules.{top};
ghost use Rattle.list_lane.specs.Lanes.{length_after as after};
ghost use Rattle.list_regions.specs.Regions.{either};
ghost use Rattle.list_regions.specs.Kept.{Alike, Holds};
ghost use Rattle.list_regions.specs.declared.merge.Next.TheVariants as nexts;
ghost use Rattle.list_regions.specs.Merges.{IsBefore, IsMerged, Merging, Slots};

use super::crossing::lifted;
use super::listed::Listed;
use super::region::Region;
use list_lane::Op;
use list_places::length_after;
use std::alloc::Global;
use sum_list::SumList;
use sync_data::NoMemory;

/// How far two regions are merged: so many slots of each, and how long the list of the first is there.
#[derive(Clone, Copy)]
pub struct Turn {
    pub(crate) left: usize,
    pub(crate) right: usize,
    pub(crate) length: u32,
}

/// Which of two regions has the next number: the first, the second, or both.
#[derive(Clone, Copy)]
pub enum Next {
    Own,
    Other,
    Shared,
}

/// The region at a place and the next one become one, where there are both.
pub(crate) fn merge_at(
    items: &mut SumList<Region>,
    alloc: Global,
    place: usize,
) -> Result<(), NoMemory>
    requires holds { Holds items.old }
    requires few { place < 2 ^ 32 }
    ensures { Alike items.old items.new }
{
    let next = place + 1;
    let Some(left) = items.get(place) else {
        return Ok(());
    };
    let Some(right) = items.get(next) else {
        return Ok(());
    };
    let first = left.listed(alloc)?;
    let second = right.listed(alloc)?;
    let one = merged(alloc, &first, &second)?;
    items.replace(place, one);
    items.remove(next);
    Ok(())
}

/// A region and the next one behind it as one.
pub(crate) fn merged(alloc: Global, left: &Listed, right: &Listed) -> Result<Region, NoMemory>
    requires left { Slots left.now }
    requires right { Slots right.now }
    requires room { left.now.gap + (left.now.lane.first + (right.now.gap + right.now.lane.first)) < top }
    ensures { IfOk result (λ q. IsMerged left.now right.now q) }
{
    let behind = right.gap() + right.elements();
    let mut region = Region::fresh(alloc, left.gap(), left.elements() + behind);
    let mut turn = Turn {
        left: 0,
        right: 0,
        length: left.elements(),
    };
    while turn.left < left.len() || turn.right < right.len() {
        turn = merge_next(&mut region, left, right, turn)?;
    }
    Ok(region)
}

/// Appends the slot with the least number.
fn merge_next(
    region: &mut Region,
    left: &Listed,
    right: &Listed,
    turn: Turn,
) -> Result<Turn, NoMemory>
    requires left { Slots left.now }
    requires right { Slots right.now }
    requires some { (turn.left < length left.now.lane.slots) ⊎ (turn.right < length right.now.lane.slots) }
    requires so_far { Merging left.now right.now turn region.old }
    ensures ok { IfOk result (λ t. Merging left.now right.now t region.new × (turn.left + turn.right < t.left + t.right)) }
{
    if !region.has_room() {
        return Err(NoMemory);
    }
    match order(left, right, turn) {
        Next::Own => take_left(region, left, right, turn),
        Next::Other => take_right(region, left, right, turn),
        Next::Shared => take_both(region, left, right, turn),
    }
}

/// Which of both has the next number.
fn order(left: &Listed, right: &Listed, turn: Turn) -> Next
    requires left { Slots left.now }
    requires right { Slots right.now }
    requires some { (turn.left < length left.now.lane.slots) ⊎ (turn.right < length right.now.lane.slots) }
    ensures { IsBefore left.now right.now turn result }
{
    if turn.right >= right.len() {
        return Next::Own;
    }
    if turn.left >= left.len() {
        return Next::Other;
    }
    let (one, other) = (left.number(turn.left), right.number(turn.right));
    if one < other {
        Next::Own
    } else if other < one {
        Next::Other
    } else {
        Next::Shared
    }
}

/// Appends the next slot of the first.
fn take_left(
    region: &mut Region,
    left: &Listed,
    right: &Listed,
    turn: Turn,
) -> Result<Turn, NoMemory>
    requires left { Slots left.now }
    requires next { IsBefore left.now right.now turn nexts.Own }
    requires room { region.old.gap + region.old.lane.first + length region.old.lane.slots + 1 < top }
    requires so_far { Merging left.now right.now turn region.old }
    ensures ok { IfOk result (λ t. Merging left.now right.now t region.new × (turn.left + turn.right < t.left + t.right)) }
{
    let slot = left.slot(turn.left);
    region.push(left.number(turn.left), slot)?;
    Ok(Turn {
        left: turn.left + 1,
        right: turn.right,
        length: length_behind(slot, turn.length),
    })
}

/// Appends the next slot of the second.
fn take_right(
    region: &mut Region,
    left: &Listed,
    right: &Listed,
    turn: Turn,
) -> Result<Turn, NoMemory>
    requires right { Slots right.now }
    requires next { IsBefore left.now right.now turn nexts.Other }
    requires room { region.old.gap + region.old.lane.first + length region.old.lane.slots + 1 < top }
    requires so_far { Merging left.now right.now turn region.old }
    ensures ok { IfOk result (λ t. Merging left.now right.now t region.new × (turn.left + turn.right < t.left + t.right)) }
{
    let slot = lifted(
        right.slot(turn.right),
        turn.length as u64 + right.gap() as u64,
    );
    region.push(right.number(turn.right), slot)?;
    Ok(Turn {
        left: turn.left,
        right: turn.right + 1,
        length: turn.length,
    })
}

/// Appends the next slot of both, which share a number. At most one has an instruction.
fn take_both(
    region: &mut Region,
    left: &Listed,
    right: &Listed,
    turn: Turn,
) -> Result<Turn, NoMemory>
    requires left { Slots left.now }
    requires right { Slots right.now }
    requires next { IsBefore left.now right.now turn nexts.Shared }
    requires room { region.old.gap + region.old.lane.first + length region.old.lane.slots + 1 < top }
    requires so_far { Merging left.now right.now turn region.old }
    ensures ok { IfOk result (λ t. Merging left.now right.now t region.new × (turn.left + turn.right < t.left + t.right)) }
{
    let own = left.slot(turn.left);
    let other = lifted(
        right.slot(turn.right),
        turn.length as u64 + right.gap() as u64,
    );
    let slot = one_of(own, other)?;
    region.push(left.number(turn.left), slot)?;
    Ok(Turn {
        left: turn.left + 1,
        right: turn.right + 1,
        length: length_behind(own, turn.length),
    })
}

/// The one of both slots that has an instruction, where not both have.
fn one_of(own: Option<Op>, other: Option<Op>) -> Result<Option<Op>, NoMemory>
    ensures { IfOk result (λ s. (s ≡ either own other) × ((own ≡ None) ⊎ (other ≡ None))) }
{
    match own {
        None => Ok(other),
        Some(_) => match other {
            None => Ok(own),
            Some(_) => Err(NoMemory),
        },
    }
}

/// The length of a list behind an instruction, if it is there.
#[inline(always)]
pub(crate) fn length_behind(slot: Option<Op>, length: u32) -> u32
    requires { length < top }
    ensures { result ≡ after slot length }
{
    match slot {
        Some(op) => length_after(op.does, length),
        None => length,
    }
}
