//! A slot by its number, and the length of the list before it.
ghost use Rattle.std.specs.Prelude.{◌≡◌, ◌<◌};
ghost use Rattle.list_regions.specs.Regions.{find, length_to, look, lengths_to};
ghost use Rattle.list_regions.specs.Kept.{Walked};
ghost use Rattle.list_regions.specs.Merges.{Slots};

use super::crossing::placed;
use super::region::Region;
use list_lane::Op;
use sum_list::SumList;

/// What is in the slot with that number.
pub(crate) fn slot_in(items: &SumList<Region>, number: u64) -> Option<Op>
    requires { Walked items.now number }
    ensures { result ≡ look number items.now }
{
    let mut passed = 0;
    for i in 0..items.len() {
        let Some(region) = items.get(i) else {
            return None;
        };
        let gap = region.gap();
        if let Some(op) = find_in(region, number) {
            return Some(placed(op, op.place as u64 + (passed + gap as u64)));
        }
        let length = length_to_in(region, number);
        passed += gap as u64 + length as u64;
    }
    None
}

/// How long the list is before that slot, up to the end of the last region.
pub(crate) fn lengths_in(items: &SumList<Region>, number: u64) -> u64
    requires { Walked items.now number }
    ensures { result ≡ lengths_to number items.now }
{
    let mut passed = 0;
    for i in 0..items.len() {
        let Some(region) = items.get(i) else {
            return passed;
        };
        let gap = region.gap();
        let length = length_to_in(region, number);
        passed += gap as u64 + length as u64;
    }
    passed
}

/// What is in the slot of a region with that number.
fn find_in(region: &Region, number: u64) -> Option<Op>
    requires { Slots region.now }
    ensures { result ≡ find number region.now.numbers region.now.lane.slots }
{
    for i in 0..region.len() {
        if region.number(i) == number {
            return region.slot(i);
        }
    }
    None
}

/// How long the list of a region is before the slot with that number.
fn length_to_in(region: &Region, number: u64) -> u32
    requires { Slots region.now }
    ensures { result ≡ length_to number region.now.lane.first region.now.numbers region.now.lane.slots }
{
    for i in 0..region.len() {
        if region.number(i) >= number {
            return region.length_before(i);
        }
    }
    region.last()
}
