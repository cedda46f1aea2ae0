//! A region becomes two.
ghost use Rattle.std.specs.Prelude.{◌≡◌, ◌+◌, ◌<◌, ◌^◌, IfSome, IsTrue, length};
ghost use Rattle.list_regions.specs.Kept.{Alike, Loose, Shrunk};
ghost use Rattle.list_regions.specs.Cuts.{Cutting, IsCut};

use super::crossing::{placed, reach};
use super::listed::Listed;
use super::pop::drop_spent;
use super::region::Region;
use std::alloc::Global;
use sum_list::SumList;

/// What becomes of a region that is cut at an element: the slots in front of that, and those behind it.
#[derive(Drop)]
pub struct Halves {
    pub(crate) front: Region,
    pub(crate) back: Region,
}

/// Where the region at a place is worn, it is cut at one of its elements, if none of its slots touches that. A half without slots
/// leaves, so what is left is nearer to its slots then. Where memory is missing the region stays.
pub(crate) fn cut_worn(
    items: &mut SumList<Region>,
    alloc: Global,
    place: usize,
    element: u32,
    worn: bool,
)
    requires { Loose items.old }
    ensures { Shrunk items.old items.new }
{
    if !worn || place >= items.len() {
        return;
    }
    cut_at(items, alloc, place, element);
    drop_spent(items, alloc, place + 1);
    drop_spent(items, alloc, place);
}

/// The region at a place becomes its halves at one of its elements, if none of its slots touches that and there is memory.
fn cut_at(items: &mut SumList<Region>, alloc: Global, place: usize, element: u32)
    requires { place < 2 ^ 32 }
    ensures { Alike items.old items.new }
{
    let Some(region) = items.get(place) else {
        return;
    };
    let Some(halves) = cut(alloc, region, element) else {
        return;
    };
    let Halves { front, back } = halves;
    if items.insert(place + 1, back).is_err() {
        return;
    }
    items.replace(place, front);
}

/// The halves of a region at one of its elements, or none where a slot touches that or memory is missing.
fn cut(alloc: Global, region: &Region, element: u32) -> Option<Halves>
    ensures { IfSome result (λ h. IsCut region.now h.front h.back) }
{
    if element >= region.elements() || !region.has_room() {
        return None;
    }
    let Ok(listed) = region.listed(alloc) else {
        return None;
    };
    let mut halves = Halves {
        front: Region::fresh(alloc, listed.gap(), element),
        back: Region::fresh(alloc, 1, listed.elements() - element - 1),
    };
    for i in 0..listed.len() {
        if !put(&mut halves, &listed, i) {
            return None;
        }
    }
    Some(halves)
}

/// Appends the slot at a place to the half in which its instruction acts; an empty slot goes to none. False where the
/// instruction touches the element between them, or memory is missing.
fn put(halves: &mut Halves, region: &Listed, place: usize) -> bool
    requires number { place < length region.now.numbers }
    requires slot { place < length region.now.lane.slots }
    requires so_far { Cutting region.now place halves.old.front halves.old.back }
    ensures { IsTrue result → Cutting region.now (place + 1) halves.new.front halves.new.back }
{
    let Some(op) = region.slot(place) else {
        return true;
    };
    let number = region.number(place);
    let length = halves.front.last();
    if reach(op) <= length as u64 {
        let pushed = halves.front.push(number, Some(op));
        return pushed.is_ok();
    }
    if op.place <= length {
        return false;
    }
    let inner = placed(op, op.place as u64 - length as u64 - 1);
    let pushed = halves.back.push(number, Some(inner));
    pushed.is_ok()
}
