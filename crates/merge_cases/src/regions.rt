//! That calls of a lane in regions succeed, and agree with a lane's, where there is memory.

ghost use Rattle.std.specs.Prelude.{◌+◌, ◌<◌, IsTrue, length};
ghost use Rattle.sync_base.specs.Rules.{top};
ghost use Rattle.list_places.specs.Places.{Within};

use list_lane::{Lane, Op};
use list_places::Does;
use list_regions::Regions;
use std::alloc::Global;
use sync_data::Stamp;

fn is_within(op: Op, length: u32) -> bool
    ensures { IsTrue result → Within op.does op.place length }
{
    match op.does {
        Does::Inserts => op.place <= length,
        Does::Erases | Does::Updates => op.place < length,
    }
}

fn has_room(first: u32, count: usize) -> bool
    ensures { IsTrue result → first + count + 1 < top }
{
    count < 1000 && first < 1_000_000
}

/// Appends the instruction to both. None where one refuses it.
fn push(lane: &mut Lane, regions: &mut Regions, op: Op) -> Option<()> {
    if !is_within(op, lane.last()) || !is_within(op, regions.last()) {
        return None;
    }
    if !has_room(lane.first(), lane.len()) || !has_room(regions.first(), regions.len()) {
        return None;
    }
    lane.push(op).ok()?;
    regions.push(op).ok()
}

/// Whether the same is left of an instruction that crosses both. None where one refuses it.
fn cross(lane: &mut Lane, regions: &mut Regions, op: Op) -> Option<bool> {
    if !is_within(op, lane.first()) || !is_within(op, regions.first()) {
        return None;
    }
    if !has_room(lane.first(), lane.len()) || !has_room(regions.first(), regions.len()) {
        return None;
    }
    let left = lane.cross(op, true);
    let also = regions.left(op, true);
    let crossed = regions.cross(op, true).ok()?;
    Some(same(left, also) && same(left, crossed) && lane.last() == regions.last())
}

fn same(one: Option<Op>, other: Option<Op>) -> bool {
    match (one, other) {
        (None, None) => true,
        (Some(one), Some(other)) => one.place == other.place && one.stamp == other.stamp,
        _ => false,
    }
}

fn op(does: Does, place: u32, ms: u64) -> Op {
    Op {
        does,
        place,
        stamp: Stamp { ms, ident: 1 },
    }
}

/// What is done, where, and whether it crosses.
const STEPS: [(Does, u32, bool); 24] = [
    (Does::Inserts, 5, false),
    (Does::Erases, 10, false),
    (Does::Updates, 2, false),
    (Does::Erases, 11, false),
    (Does::Erases, 9, false),
    (Does::Inserts, 0, false),
    (Does::Updates, 3, false),
    (Does::Erases, 4, true),
    (Does::Erases, 5, true),
    (Does::Erases, 6, true),
    (Does::Erases, 7, true),
    (Does::Inserts, 0, true),
    (Does::Inserts, 5, true),
    (Does::Updates, 3, true),
    (Does::Inserts, 16, true),
    (Does::Erases, 4, true),
    (Does::Inserts, 7, false),
    (Does::Erases, 1, false),
    (Does::Erases, 3, true),
    (Does::Erases, 3, true),
    (Does::Erases, 3, true),
    (Does::Erases, 3, true),
    (Does::Updates, 2, true),
    (Does::Inserts, 4, true),
];

/// Whether both agree all along. None where a call fails.
fn agree(alloc: Global) -> Option<bool> {
    let mut lane = Lane::new(alloc, 20);
    let mut regions = Regions::new(alloc, 20);
    let mut agreed = true;
    for (i, (does, place, crosses)) in STEPS.into_iter().enumerate() {
        let op = op(does, place, i as u64);
        if crosses {
            agreed = cross(&mut lane, &mut regions, op)? && agreed;
        } else {
            push(&mut lane, &mut regions, op)?;
        }
    }
    for i in 0..12 {
        agreed = same(lane.slot(i), regions.slot(i)) && agreed;
    }
    for _ in 0..lane.len() {
        agreed = same(lane.pop_first(), regions.pop_first()) && agreed;
    }
    Some(agreed && regions.len() == 0)
}

/// Whether they agree, and no call fails.
pub(crate) fn regions_do_as_a_lane(alloc: Global) -> bool {
    agree(alloc) == Some(true)
}
