ghost use Rattle.std.specs.Prelude.{◌≡◌, ◌≤◌, ◌<◌, ◌+◌, ◌∷◌, ◌++◌, [], Some, None, IfSome, List, Option, cond, not, length, take, drop};
ghost use Rattle.sync_base.specs.Rules.{top};
ghost use Rattle.list_lane.specs.declared.op.Op as ops;
ghost use Rattle.list_lane.specs.Lanes.{crossed as crosses, behind, length_after as after, length_before as before};
ghost use Rattle.list_lane.specs.Ops.{lane_later as later, moved};
ghost use Rattle.list_lane.specs.Flat.{done, Placed};
ghost use Rattle.list_lane.specs.Bursts.{lifted as lifts, lift_all};

use super::op::Op;
use list_places::{is_later, length_after, place_after};
use sync_data::Stamp;

/// What is left of an instruction that crosses the slots in turn. They stand as crossed, by places alone.
pub(crate) fn cross_slots(slots: &mut [Option<Op>], traveller: Op, lane_left: bool) -> Option<Op>
    requires room { traveller.place + length slots.old ≤ top }
    requires placed { Placed slots.old }
    ensures slots { slots.new ≡ (crosses (later lane_left) slots.old (Some traveller)).slots }
    ensures left { result ≡ (crosses (later lane_left) slots.old (Some traveller)).left }
{
    let mut now = traveller;
    for i in 0..slots.len() {
        if !meet_at(slots, &mut now, i, lane_left) {
            return None;
        }
    }
    Some(now)
}

/// It meets the slot at a place, and tells whether it stays.
#[inline(always)]
fn meet_at(slots: &mut [Option<Op>], now: &mut Op, at: usize, lane_left: bool) -> bool
    requires within { at < length slots.old }
    requires room { now.old.place < top }
    requires placed { Placed (drop at slots.old) }
    ensures so_far { done (take at slots.old) (crosses (later lane_left) (drop at slots.old) (Some now.old)) ≡ done (take (at + 1) slots.new) (crosses (later lane_left) (drop (at + 1) slots.new) (cond result (Some now.new) None)) }
    ensures rest { drop (at + 1) slots.new ≡ drop (at + 1) slots.old }
    ensures size { length slots.new ≡ length slots.old }
    ensures place { now.new.place ≤ now.old.place + 1 }
{
    let Some(op) = slots[at] else {
        return true;
    };
    let lane_later = is_later_in(op.stamp, now.stamp, lane_left);
    let mine = place_after(!lane_later, now.does, now.place, op.does, op.place);
    let own = place_after(lane_later, op.does, op.place, now.does, now.place);
    slots[at] = moved_to(op, own);
    match mine {
        Some(place) => {
            now.place = place;
            true
        }
        None => false,
    }
}

/// The op at another place, or none.
#[inline(always)]
fn moved_to(op: Op, place: Option<u32>) -> Option<Op>
    ensures { result ≡ moved op place }
{
    match place {
        Some(place) => Some(Op { place, ..op }),
        None => None,
    }
}

/// What is left of an instruction that crosses slots that were lifted since they were written.
pub(crate) fn left_behind(
    slots: &[Option<Op>],
    up: u32,
    down: u32,
    traveller: Op,
    lane_left: bool,
) -> Option<Op>
    requires room { traveller.place + length slots.now ≤ top }
    requires placed { Placed (lift_all up down slots.now) }
    ensures { result ≡ (crosses (later lane_left) (lift_all up down slots.now) (Some traveller)).left }
{
    let mut now = traveller;
    for i in 0..slots.len() {
        if let Some(op) = slots[i] {
            match left_of(now, lifted(op, up, down), lane_left) {
                Some(place) => now.place = place,
                None => return None,
            }
        }
    }
    Some(now)
}

/// Where an instruction is behind one in the lane, if it stays.
#[inline(always)]
fn left_of(now: Op, op: Op, lane_left: bool) -> Option<u32>
    requires { now.place < top }
    ensures is { (ss : List (Option ops.Op)) → (crosses (later lane_left) (Some op ∷ ss) (Some now)).left ≡ (crosses (later lane_left) ss (moved now result)).left }
    ensures place { IfSome result (λ p. p ≤ now.place + 1) }
{
    let lane_later = is_later_in(op.stamp, now.stamp, lane_left);
    place_after(!lane_later, now.does, now.place, op.does, op.place)
}

/// An op as it was lifted.
#[inline(always)]
pub(crate) fn lifted(op: Op, up: u32, down: u32) -> Op
    requires { (lifts up down op).place ≤ top }
    ensures { result ≡ lifts up down op }
{
    let place = (op.place as u64 + up as u64).saturating_sub(down as u64) as u32;
    Op { place, ..op }
}

/// Writes the slots as they were lifted.
pub(crate) fn lift_slots(slots: &mut [Option<Op>], up: u32, down: u32)
    requires { Placed (lift_all up down slots.old) }
    ensures { slots.new ≡ lift_all up down slots.old }
{
    for i in 0..slots.len() {
        lift_at(slots, i, up, down);
    }
}

fn lift_at(slots: &mut [Option<Op>], at: usize, up: u32, down: u32)
    requires within { at < length slots.old }
    requires placed { Placed (lift_all up down (drop at slots.old)) }
    ensures first { take (at + 1) slots.new ≡ take at slots.old ++ lift_all up down (take 1 (drop at slots.old)) }
    ensures rest { drop (at + 1) slots.new ≡ drop (at + 1) slots.old }
    ensures size { length slots.new ≡ length slots.old }
{
    if let Some(op) = slots[at] {
        slots[at] = Some(lifted(op, up, down));
    }
}

/// The length of a list behind so many slots.
pub(crate) fn length_in(slots: &[Option<Op>], at: usize, first: u32) -> u32
    requires within { at ≤ length slots.now }
    requires room { first + at < top }
    ensures { result ≡ before at first slots.now }
{
    let mut result = first;
    for i in 0..at {
        result = length_behind(slots[i], result);
    }
    result
}

/// The length of a list behind an instruction, if it is there.
#[inline(always)]
pub(crate) fn length_behind(slot: Option<Op>, length: u32) -> u32
    requires { length < top }
    ensures is { result ≡ after slot length }
    ensures more { result ≤ length + 1 }
{
    match slot {
        Some(op) => length_after(op.does, length),
        None => length,
    }
}

/// Whether the stamp in the lane is the later one.
#[inline(always)]
pub(crate) fn is_later_in(in_lane: Stamp, traveller: Stamp, lane_left: bool) -> bool
    ensures { result ≡ later lane_left in_lane traveller }
{
    if lane_left {
        is_later(in_lane, traveller)
    } else {
        !is_later(traveller, in_lane)
    }
}
