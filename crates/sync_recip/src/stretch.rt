ghost use Rattle.std.specs.Prelude.{◌≡◌, ◌<◌, ◌+◌, None, Some, IfSome, IsFalse, IsTrue, OnOk, OnErr, false, length, map};
ghost use Rattle.sync_base.specs.Rules.{top};
ghost use Rattle.list_places.specs.Places.{Within};
ghost use Rattle.list_places.specs.Moves.{kind_of};
ghost use Rattle.list_lane.specs.Lanes.{lane_after, length_at_end, Chains, Fits};
ghost use Rattle.list_lane.specs.Ops.{lane_later};
ghost use Rattle.list_lane.specs.Told.{place_in, prior_in};
ghost use Rattle.sync_recip.specs.Acrossing.{op_across, put_across, CanCross, CrossedAt, LeavesAction, TakesAcross};
ghost use Rattle.sync_recip.specs.Lists.{kept_entry, versions};
ghost use Rattle.sync_recip.specs.Stretches.{laid, lane_with, shown_by, Follows, Stands, Outside, IsSlotAt, IsToldAt};

use super::across::Across;
use super::kept::Kept;
use super::shared::SharedEntry;
use list_lane::{Op, action_of, op_of, prior_of};
use list_places::ListAction;
use list_regions::Regions;
use std::alloc::Global;
use sync_base::NoMemory;

/// Entries next to each other, each of one list instruction of one cell, or of none any more: the place of the first, an entry of
/// that cell, and what the instructions do now, as a lane in regions.
#[derive(Drop)]
pub(crate) struct Stretch {
    pub(crate) start: usize,
    pub(crate) sample: SharedEntry,
    pub(crate) lane: Regions,
}

/// What a stretch tells of the entry at a place, and the length of the list on which that acts; none where it doesn't lie in the
/// stretch.
pub(crate) fn told_at(stretch: &Option<Stretch>, place: usize) -> Option<(Option<Op>, u32)>
    ensures told { IsToldAt place stretch.now result }
    ensures fits { IfSome result (λ p. Fits p.1 p.0) }
{
    match stretch {
        Some(stretch) => slot_at(stretch, place),
        None => None,
    }
}

fn slot_at(stretch: &Stretch, place: usize) -> Option<(Option<Op>, u32)>
    ensures told { IsSlotAt place stretch.now result }
    ensures fits { IfSome result (λ p. Fits p.1 p.0) }
{
    if place < stretch.start || place - stretch.start >= stretch.lane.len() {
        return None;
    }
    let at = place - stretch.start;
    Some((stretch.lane.slot(at), stretch.lane.length_before(at)))
}

/// What is left of an action that crosses the lane of a stretch, which stays as it is.
pub(crate) fn left_by(stretch: &Stretch, across: &Across) -> Option<ListAction>
    requires { TakesAcross stretch.now across.now }
    ensures { LeavesAction stretch.now across.now result }
{
    let lane = &stretch.lane;
    let _ = lane.first();
    match lane.left(op_of(across.action, across.stamp), false) {
        Some(op) => Some(action_of(op, lane.last())),
        None => None,
    }
}

/// An action crosses the lane of a stretch. Where it would take memory and there is none, the stretch stays as it is.
fn cross_lane(stretch: &mut Stretch, across: &Across) -> Result<(), NoMemory>
    requires { TakesAcross stretch.old across.now }
    ensures crossed { OnOk result (stretch.new ≡ record stretch.old { lane = lane_after (lane_later false) stretch.old.lane (op_across across.now) }) }
    ensures within { Within (kind_of across.now.action) (place_in across.now.action) (prior_in across.now.action) }
    ensures unchanged { OnErr result (stretch.new ≡ stretch.old) }
{
    let op = op_of(across.action, across.stamp);
    stretch.lane.cross(op, false)?;
    Ok(())
}

/// What the entry behind a stretch is in its lane, where it can follow on in that.
fn next_slot(kept: &[Kept], stretch: &Stretch) -> Option<Option<Op>>
    requires { Stands kept.now stretch.now }
    ensures { IfSome result (Follows kept.now stretch.now) }
{
    let count = stretch.lane.len();
    let place = stretch.start + count;
    if place >= kept.len() || !has_room(stretch.lane.first(), count) {
        return None;
    }
    let next = &kept[place];
    let sample = stretch.sample.entry();
    next.item.slot_in(&sample.changes, stretch.lane.last())
}

fn push_slot(lane: &mut Regions, slot: Option<Op>) -> Result<(), NoMemory>
    requires fits { Fits (length_at_end lane.old.first lane.old.slots) slot }
    requires room { lane.old.first + length lane.old.slots + 1 < top }
    ensures ok { OnOk result (lane.new ≡ lane_with slot lane.old) }
    ensures unchanged { OnErr result (lane.new ≡ lane.old) }
{
    match slot {
        Some(op) => lane.push(op),
        None => lane.push_empty(),
    }
}

/// The entry behind a stretch joins it, where it can follow on in its lane. Whether it does.
fn extend(kept: &[Kept], stretch: &mut Stretch) -> bool
    requires { Stands kept.now stretch.old }
    ensures shown { laid stretch.new.start stretch.new.lane kept.now ≡ laid stretch.old.start stretch.old.lane kept.now }
    ensures stands { Stands kept.now stretch.new }
    ensures start { stretch.new.start ≡ stretch.old.start }
    ensures more { IsTrue result → length stretch.new.lane.slots ≡ length stretch.old.lane.slots + 1 }
{
    match next_slot(kept, stretch) {
        Some(slot) => push_slot(&mut stretch.lane, slot).is_ok(),
        None => false,
    }
}

/// The last entry joins the stretch, where that ends before it.
pub(crate) fn extend_last(kept: &[Kept], stretch: &mut Option<Stretch>)
    requires { IfSome stretch.old (Stands kept.now) }
    ensures shown { shown_by stretch.new kept.now ≡ shown_by stretch.old kept.now }
    ensures stands { IfSome stretch.new (Stands kept.now) }
{
    if let Some(stretch) = stretch {
        if kept.len() - stretch.start - stretch.lane.len() == 1 {
            extend(kept, stretch);
        }
    }
}

/// The longest stretch of entries that begins with the one at a place, or a shorter one where memory runs out; none where that
/// one isn't one list instruction.
fn stretch_from(alloc: Global, kept: &[Kept], start: usize) -> Option<Stretch>
    requires { start < length kept.now }
    ensures shown { IfSome result (λ s. laid s.start s.lane kept.now ≡ kept.now) }
    ensures stands { IfSome result (Stands kept.now) }
{
    let one = &kept[start];
    let first = prior_of(one.item.action()?);
    if first == u32::MAX {
        return None;
    }
    let Ok(sample) = one.item.sample() else {
        return None;
    };
    let mut stretch = Stretch {
        start,
        sample,
        lane: Regions::new(alloc, first),
    };
    while extend(kept, &mut stretch) {}
    Some(stretch)
}

/// The first stretch from a place on that has so many entries.
pub(crate) fn first_stretch(
    alloc: Global,
    kept: &[Kept],
    from: usize,
    least: usize,
) -> Option<Stretch>
    ensures shown { shown_by result kept.now ≡ kept.now }
    ensures stands { IfSome result (Stands kept.now) }
{
    let mut start = from;
    while start < kept.len() {
        let mut count = 1;
        if let Some(stretch) = stretch_from(alloc, kept, start) {
            count = stretch.lane.len().max(1);
            if count >= least {
                return Some(stretch);
            }
        }
        start = start.saturating_add(count);
    }
    None
}

/// The first of a stretch is written as it stands, and the stretch begins behind it. It needs no memory.
pub(crate) fn write_first(kept: &mut Vec<Kept>, stretch: &mut Stretch)
    requires some { 0 < length stretch.old.lane.slots }
    requires stands { Stands kept.old.items stretch.old }
    ensures shown { laid stretch.new.start stretch.new.lane kept.new.items ≡ laid stretch.old.start stretch.old.lane kept.old.items }
    ensures stands { Stands kept.new.items stretch.new }
    ensures start { stretch.new.start ≡ stretch.old.start + 1 }
    ensures fewer { length stretch.new.lane.slots + 1 ≡ length stretch.old.lane.slots }
{
    let length = stretch.lane.first();
    let slot = stretch.lane.pop_first();
    let one = &mut kept[stretch.start];
    one.item.tell(slot, length);
    stretch.start += 1;
}

/// All of a stretch are written as they stand. It needs no memory.
pub(crate) fn write_all(kept: &mut Vec<Kept>, stretch: Stretch)
    requires { Stands kept.old.items stretch }
    ensures { kept.new.items ≡ laid stretch.start stretch.lane kept.old.items }
{
    let mut rest = stretch;
    while rest.lane.len() > 0 {
        write_first(kept, &mut rest);
    }
}

/// Where the place lies in the stretch all of that is written, so that what stands at the place is what is shown there.
pub(crate) fn write_around(kept: &mut Vec<Kept>, stretch: &mut Option<Stretch>, place: usize)
    requires { IfSome stretch.old (Stands kept.old.items) }
    ensures shown { shown_by stretch.new kept.new.items ≡ shown_by stretch.old kept.old.items }
    ensures stands { IfSome stretch.new (Stands kept.new.items) }
    ensures outside { IfSome stretch.new (Outside place) }
{
    if told_at(stretch, place).is_some() {
        write_whole(kept, stretch);
    }
}

/// The whole stretch is written, where there is one.
pub(crate) fn write_whole(kept: &mut Vec<Kept>, stretch: &mut Option<Stretch>)
    requires { IfSome stretch.old (Stands kept.old.items) }
    ensures shown { kept.new.items ≡ shown_by stretch.old kept.old.items }
    ensures none { stretch.new ≡ None }
{
    if let Some(whole) = stretch.take() {
        write_all(kept, whole);
    }
}

/// Those of a stretch that lie before a place are written, and the stretch begins there or behind it. It needs no memory.
pub(crate) fn write_before(kept: &mut Vec<Kept>, stretch: &mut Option<Stretch>, place: usize)
    requires { IfSome stretch.old (Stands kept.old.items) }
    ensures shown { shown_by stretch.new kept.new.items ≡ shown_by stretch.old kept.old.items }
    ensures stands { IfSome stretch.new (Stands kept.new.items) }
{
    let Some(mut rest) = stretch.take() else {
        return;
    };
    while rest.start < place && rest.lane.len() > 0 {
        write_first(kept, &mut rest);
    }
    *stretch = Some(rest);
}

/// So many entries, from a place on, meet an action of a change, one after the other. It takes no memory.
pub(crate) fn cross_each(kept: &mut Vec<Kept>, across: Across)
    requires { CanCross across (map kept_entry kept.old.items) }
    ensures versions { versions kept.new.items ≡ versions kept.old.items }
    ensures entries { map kept_entry kept.new.items ≡ put_across across (map kept_entry kept.old.items) }
{
    let mut left = Some(across.action);
    let mut place = across.start;
    let mut count = across.count;
    while count > 0 {
        let Some(action) = left else {
            return;
        };
        let one = &mut kept[place];
        left = one.item.meet(&action, across.stamp);
        place += 1;
        count -= 1;
    }
}

/// An action crosses the lane of the stretch, where it comes to that and there is memory. Whether it does.
pub(crate) fn cross_at_once(stretch: &mut Option<Stretch>, across: &Across) -> bool
    ensures crossed { IsTrue result → CrossedAt across.now stretch.old stretch.new }
    ensures unchanged { IsFalse result → stretch.new ≡ stretch.old }
{
    if let Some(stretch) = stretch {
        if takes(stretch, across) {
            return cross_lane(stretch, across).is_ok();
        }
    }
    false
}

/// Whether an action that comes to these crosses the lane of a stretch.
pub(crate) fn takes(stretch: &Stretch, across: &Across) -> bool
    ensures takes { IsTrue result → TakesAcross stretch.now across.now }
    ensures chains { Chains stretch.now.lane.first stretch.now.lane.slots }
{
    let (count, first) = (stretch.lane.len(), stretch.lane.first());
    stretch.start == across.start
        && count == across.count
        && first == prior_of(across.action)
        && has_room(first, count)
}

/// Whether a list of that length stays short enough for so many more.
fn has_room(length: u32, count: usize) -> bool
    ensures { IsTrue result → length + count + 1 < top }
{
    let most = u32::MAX as usize;
    count < most && length as usize + count + 1 < most
}
