//! A slot more.
ghost use Rattle.std.specs.Prelude.{◌≡◌, ◌∷◌, ◌++◌, [], ◌+◌, ◌-◌, ◌≤◌, ◌<◌, ◌^◌, Some, IfOk, IfErr, OnOk, OnErr, length, insert, slice_get, slice_set};
ghost use Rattle.sync_base.specs.Rules.{top};
ghost use Rattle.list_places.specs.Places.{Within};
ghost use Rattle.list_lane.specs.Lanes.{length_at_end};
ghost use Rattle.list_regions.specs.Regions.{RegionOf};
ghost use Rattle.list_regions.specs.Kept.{elements, fresh, pushed_region, with_fresh, with_front, Ends, LiesBehind, Opened, Pushed, Touches};

use super::crossing::{placed, reach, set_gap_at};
use super::merge::merge_at;
use super::region::Region;
use list_lane::Op;
use list_places::Does;
use std::alloc::Global;
use sum_list::SumList;
use sync_data::NoMemory;

/// A region, by its place, and what touches it there, by its place in the region.
#[derive(Clone, Copy)]
pub(crate) struct Touch {
    pub(crate) place: usize,
    pub(crate) inner: Op,
}

/// Appends an instruction that acts on the list behind the slots, as the slot with that number.
pub(crate) fn push_to(
    items: &mut SumList<Region>,
    alloc: Global,
    op: Op,
    number: u64,
) -> Result<(), NoMemory>
    requires { Ends items.old op number }
    ensures ok { OnOk result (Pushed items.old op number items.new) }
    ensures err { OnErr result (Opened items.old op items.new) }
{
    ready(items, alloc, op, number)?;
    let touch = open(items, alloc, op, number)?;
    append_at(items, alloc, touch, number)
}

/// The region that an instruction touches, which acts on the list behind the slots. Where it touches none, elements become one.
fn open(items: &mut SumList<Region>, alloc: Global, op: Op, number: u64) -> Result<Touch, NoMemory>
    requires { Ends items.old op number }
    ensures ok { IfOk result (λ t. Opened items.old op items.new × Touches items.new op t.place t.inner) }
    ensures err { OnErr result (items.new ≡ items.old) }
{
    let at = items.find_after(reach(op));
    let offset = op.place as u64 - at.after;
    if at.place == items.len() {
        return open_behind(items, alloc, op, number, at.place, offset as u32);
    }
    let gap = gap_at(items, at.place);
    if offset < gap as u64 {
        return open_front(items, alloc, op, number, at.place, offset as u32);
    }
    Ok(Touch {
        place: at.place,
        inner: placed(op, offset - gap as u64),
    })
}

/// It touches elements behind all regions, but not the first of them, as `ready` saw to.
fn open_behind(
    items: &mut SumList<Region>,
    alloc: Global,
    op: Op,
    number: u64,
    place: usize,
    offset: u32,
) -> Result<Touch, NoMemory>
    requires ends { Ends items.old op number }
    requires last { place ≡ length items.old }
    requires found { LiesBehind items.old op place offset }
    ensures ok { IfOk result (λ t. Opened items.old op items.new × Touches items.new op t.place t.inner) }
    ensures err { OnErr result (items.new ≡ items.old) }
{
    if offset == 0 && place > 0 {
        return Err(NoMemory);
    }
    push_fresh(items, alloc, offset, elements_of(op.does))?;
    Ok(Touch {
        place,
        inner: placed(op, 0),
    })
}

/// It touches elements in front of the region at a place, but not the first of them behind another region, as `ready` saw to.
fn open_front(
    items: &mut SumList<Region>,
    alloc: Global,
    op: Op,
    number: u64,
    place: usize,
    offset: u32,
) -> Result<Touch, NoMemory>
    requires ends { Ends items.old op number }
    requires there { place < length items.old }
    requires few { place < 2 ^ 32 }
    requires found { LiesBehind items.old op place offset }
    requires gap { (q : RegionOf) → slice_get items.old place ≡ Some q → offset < q.gap }
    ensures ok { IfOk result (λ t. Opened items.old op items.new × Touches items.new op t.place t.inner) }
    ensures err { OnErr result (items.new ≡ items.old) }
{
    if offset == 0 && place > 0 {
        return Err(NoMemory);
    }
    let gap = gap_at(items, place);
    let size = elements_of(op.does);
    let rest = gap - offset - size;
    if rest == 0 {
        take_front_at(items, alloc, place);
        return Ok(Touch {
            place,
            inner: placed(op, 0),
        });
    }
    insert_fresh(items, alloc, place, offset, size, rest)?;
    Ok(Touch {
        place,
        inner: placed(op, 0),
    })
}

/// Where the instruction touches the element right behind a region, that region takes the element; where it was the last one
/// before the next region, both become one.
fn ready(items: &mut SumList<Region>, alloc: Global, op: Op, number: u64) -> Result<(), NoMemory>
    requires { Ends items.old op number }
    ensures { Opened items.old op items.new }
{
    let at = items.find_after(reach(op));
    if op.place as u64 > at.after || at.place == 0 {
        return Ok(());
    }
    if at.place == items.len() {
        push_fresh(items, alloc, 1, 0)?;
        return merge_at(items, alloc, at.place - 1);
    }
    let gap = gap_at(items, at.place);
    if gap <= 1 {
        return merge_at(items, alloc, at.place - 1);
    }
    insert_fresh(items, alloc, at.place, 1, 0, gap - 1)?;
    merge_at(items, alloc, at.place - 1)
}

/// How many elements lie in front of the region at a place.
pub(crate) fn gap_at(items: &SumList<Region>, place: usize) -> u32
    requires { place < length items.now }
    ensures { (q : RegionOf) → slice_get items.now place ≡ Some q → result ≡ q.gap }
{
    match items.get(place) {
        Some(region) => region.gap(),
        None => 0,
    }
}

/// Elements behind all regions become one.
fn push_fresh(
    items: &mut SumList<Region>,
    alloc: Global,
    gap: u32,
    size: u32,
) -> Result<(), NoMemory>
    requires { gap + size < top }
    ensures ok { OnOk result (items.new ≡ items.old ++ fresh gap size ∷ []) }
    ensures err { OnErr result (items.new ≡ items.old) }
{
    match items.push(Region::fresh(alloc, gap, size)) {
        Ok(()) => Ok(()),
        Err(_) => Err(NoMemory),
    }
}

/// Elements in front of a region become one.
fn insert_fresh(
    items: &mut SumList<Region>,
    alloc: Global,
    place: usize,
    gap: u32,
    size: u32,
    rest: u32,
) -> Result<(), NoMemory>
    requires there { place < length items.old }
    requires few { place < 2 ^ 32 }
    requires low { gap + size < top }
    requires room { (q : RegionOf) → slice_get items.old place ≡ Some q → rest + q.lane.first + length q.lane.slots < top }
    ensures ok { OnOk result ((q : RegionOf) → slice_get items.old place ≡ Some q → items.new ≡ with_fresh items.old place q gap size rest) }
    ensures err { OnErr result (items.new ≡ items.old) }
{
    if items
        .insert(place, Region::fresh(alloc, gap, size))
        .is_err()
    {
        return Err(NoMemory);
    }
    set_gap_at(items, alloc, place + 1, rest);
    Ok(())
}

/// A region takes the element in front of it.
fn take_front_at(items: &mut SumList<Region>, alloc: Global, place: usize)
    requires there { place < length items.old }
    requires some { (q : RegionOf) → slice_get items.old place ≡ Some q → 0 < q.gap }
    ensures { (q : RegionOf) → slice_get items.old place ≡ Some q → items.new ≡ slice_set items.old place (with_front q) }
{
    let mut region = items.replace(place, Region::empty(alloc));
    region.take_front();
    items.replace(place, region);
}

/// Appends what touches a region to its slots.
fn append_at(
    items: &mut SumList<Region>,
    alloc: Global,
    touch: Touch,
    number: u64,
) -> Result<(), NoMemory>
    requires there { touch.place < length items.old }
    requires within { (q : RegionOf) → slice_get items.old touch.place ≡ Some q → Within touch.inner.does touch.inner.place (length_at_end q.lane.first q.lane.slots) }
    ensures ok { OnOk result ((q : RegionOf) → slice_get items.old touch.place ≡ Some q → items.new ≡ slice_set items.old touch.place (pushed_region number (Some touch.inner) q)) }
    ensures err { OnErr result (items.new ≡ items.old) }
{
    let mut region = items.replace(touch.place, Region::empty(alloc));
    let pushed = region.push(number, Some(touch.inner));
    items.replace(touch.place, region);
    pushed
}

/// How many elements an instruction needs for itself.
fn elements_of(does: Does) -> u32
    ensures { result ≡ elements does }
{
    match does {
        Does::Inserts => 0,
        Does::Erases | Does::Updates => 1,
    }
}
