//! The first slot leaves.
ghost use Rattle.std.specs.Prelude.{◌≡◌, ℕ, ◌≤◌, ◌<◌, Some, MatchOption, length, slice_get};
ghost use Rattle.sync_base.specs.Rules.{top};
ghost use Rattle.list_regions.specs.Regions.{RegionOf, befores, either, number as number_of};
ghost use Rattle.list_regions.specs.Kept.{AllLater, Loose, PopsAt, PopsFirst, Shrunk, Starts};

use super::crossing::{lifted, set_gap_at};
use super::push::gap_at;
use super::region::Region;
use list_lane::Op;
use std::alloc::Global;
use sum_list::{Measured, SumList};

/// Takes the slot out that has that number, which is the least, and tells what was in it.
pub(crate) fn pop_number(items: &mut SumList<Region>, alloc: Global, number: u64) -> Option<Op>
    requires { Starts items.old number }
    ensures { PopsFirst items.old number result items.new }
{
    let place = place_with(items, number);
    let popped = pop_slots(items, alloc, number);
    if let Some(place) = place {
        drop_spent(items, alloc, place);
    }
    popped
}

/// Takes the slot out from all regions that have it.
fn pop_slots(items: &mut SumList<Region>, alloc: Global, number: u64) -> Option<Op>
    requires { Starts items.old number }
    ensures { PopsFirst items.old number result items.new }
{
    let mut popped = None;
    while let Some(place) = place_with(items, number) {
        let next = pop_at(items, alloc, place, number);
        popped = first_of_both(popped, next);
    }
    popped
}

/// The first of both, where there is one.
fn first_of_both(first: Option<Op>, next: Option<Op>) -> Option<Op>
    ensures { result ≡ either first next }
{
    match first {
        Some(op) => Some(op),
        None => next,
    }
}

/// The place of a region whose first slot has that number, which is the least.
fn place_with(items: &SumList<Region>, number: u64) -> Option<usize>
    requires { (i : ℕ) (q : RegionOf) → slice_get items.now i ≡ Some q → number ≤ number_of q }
    ensures { MatchOption result (AllLater number items.now) (λ i. (i < length items.now) × ((q : RegionOf) → slice_get items.now i ≡ Some q → number_of q ≡ number)) }
{
    let Some(place) = items.least() else {
        return None;
    };
    let Some(region) = items.get(place) else {
        return None;
    };
    if region.first() == number {
        Some(place)
    } else {
        None
    }
}

/// Takes the first slot of the region at a place out, which has that number.
fn pop_at(items: &mut SumList<Region>, alloc: Global, place: usize, number: u64) -> Option<Op>
    requires there { place < length items.old }
    requires number { (q : RegionOf) → slice_get items.old place ≡ Some q → number_of q ≡ number }
    requires some { number < 18446744073709551615 }
    requires low { befores items.old ≤ top }
    requires same { (q : RegionOf) → slice_get items.old place ≡ Some q → length q.numbers ≡ length q.lane.slots }
    ensures { PopsAt items.old number place result items.new }
{
    let before = items.sums_to(place).before;
    let mut region = items.replace(place, Region::empty(alloc));
    let gap = region.gap();
    let slot = region.pop_first();
    items.replace(place, region);
    lifted(slot, before + gap as u64)
}

/// A region without slots leaves. Its elements come to those in front of the next one.
pub(crate) fn drop_spent(items: &mut SumList<Region>, alloc: Global, place: usize)
    requires { Loose items.old }
    ensures { Shrunk items.old items.new }
{
    let count = items.len();
    let Some(region) = items.get(place) else {
        return;
    };
    if region.len() > 0 {
        return;
    }
    let spent = region.gap() + region.elements();
    if place + 1 >= count {
        items.remove(place);
        return;
    }
    let gap = gap_at(items, place + 1);
    set_gap_at(items, alloc, place + 1, gap + spent);
    items.remove(place);
}
