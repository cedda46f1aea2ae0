ghost use Rattle.std.specs.Prelude.{◌≡◌, ◌<◌, ◌++◌, Some, IfOk, OnOk, length, slice_get};
ghost use Rattle.list_lane.specs.Lanes.{slot_at, length_before, Fits};
ghost use Rattle.list_regions.specs.Kept.{region, IsListed};

use list_lane::Op;
use std::alloc::Global;
use std::collections::VecDeque;
use std::marker::Model;
use sync_data::NoMemory;

/// A region that lies in one list, for a walk over its slots: it looks each up at once.
#[derive(Drop)]
pub struct Listed {
    gap: u32,
    elements: u32,
    numbers: Vec<u64>,
    slots: Vec<Option<Op>>,
}

impl Model for Listed {
    ghost use Rattle.list_regions.specs.Regions.{RegionOf};
    ghost use Rattle.list_regions.specs.Kept.{region, IsListed};

    ghost Value = { RegionOf };

    ghost view = { λ a. region a.gap a.numbers.items a.elements a.slots.items };

    ghost invariant = { λ a. IsListed a.numbers.items a.elements a.slots.items };
}

impl Listed {
    pub(crate) fn new(gap: u32, elements: u32, numbers: Vec<u64>, slots: Vec<Option<Op>>) -> Listed
        requires { IsListed numbers.items elements slots.items }
        ensures { result ≡ region gap numbers.items elements slots.items }
    {
        Listed {
            gap,
            elements,
            numbers,
            slots,
        }
    }

    /// How many elements lie in front of it.
    pub(crate) fn gap(&self) -> u32
        ensures { result ≡ self.now.gap }
    {
        self.gap
    }

    /// How long its list is before its first slot.
    pub(crate) fn elements(&self) -> u32
        ensures { result ≡ self.now.lane.first }
    {
        self.elements
    }

    /// How many slots it has.
    pub(crate) fn len(&self) -> usize
        ensures numbers { result ≡ length self.now.numbers }
        ensures slots { result ≡ length self.now.lane.slots }
    {
        self.slots.len()
    }

    /// The number of a slot.
    pub(crate) fn number(&self, place: usize) -> u64
        requires { place < length self.now.numbers }
        ensures { slice_get self.now.numbers place ≡ Some result }
    {
        self.numbers[place]
    }

    /// What is in a slot.
    pub(crate) fn slot(&self, place: usize) -> Option<Op>
        requires { place < length self.now.lane.slots }
        ensures slot { result ≡ slot_at place self.now.lane.slots }
        ensures fits { Fits (length_before place self.now.lane.first self.now.lane.slots) result }
    {
        self.slots[place]
    }
}

/// The same numbers in one list.
pub(crate) fn numbers_of(numbers: &VecDeque<u64>, alloc: Global) -> Result<Vec<u64>, NoMemory>
    ensures { IfOk result (λ v. v.items ≡ numbers.now.items) }
{
    let (first, rest) = numbers.as_slices();
    let mut all = Vec::new(alloc);
    extend(&mut all, first)?;
    extend(&mut all, rest)?;
    Ok(all)
}

fn extend(numbers: &mut Vec<u64>, more: &[u64]) -> Result<(), NoMemory>
    ensures { OnOk result (numbers.new.items ≡ numbers.old.items ++ more.now) }
{
    match numbers.extend_from_slice(more) {
        Ok(()) => Ok(()),
        Err(_) => Err(NoMemory),
    }
}
