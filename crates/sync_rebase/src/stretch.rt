ghost use Rattle.std.specs.Prelude.{◌≡◌, ◌<◌, ◌+◌, None, Some, IfSome, IsTrue, IsFalse, OnOk, OnErr, true, drop, length};
ghost use Rattle.sync_base.specs.Rules.{top};
ghost use Rattle.sync_rebase.specs.Stretches.{laid, shown_by, lane_with, Follows, Stands, Outside, IsSlotAt, IsToldAt, StepsBack};
ghost use Rattle.sync_rebase.specs.Settling.{CanPass, put_across};
ghost use Rattle.sync_rebase.specs.Acrossing.{op_across, CrossedAt, LeavesAction, TakesAcross};
ghost use Rattle.list_lane.specs.Ops.{lane_later};
ghost use Rattle.list_lane.specs.Lanes.{lane_after, length_at_end, Chains, Fits};
ghost use Rattle.list_lane.specs.Told.{place_in, prior_in};
ghost use Rattle.list_places.specs.Moves.{kind_of};
ghost use Rattle.list_places.specs.Places.{Within};

use super::carried::Across;
use super::unsent::Unsent;
use list_lane::{Op, action_of, op_of, prior_of};
use list_places::ListAction;
use list_regions::Regions;
use std::alloc::Global;
use std::collections::VecDeque;
use sync_data::{Changeset, Ident, NoMemory};

/// Unsent changesets next to each other, each of one list instruction of one cell, or of none any more: the place of the
/// first, the ident of the client, a changeset of that cell, and what the instructions do now, as a lane in regions.
#[derive(Drop)]
pub(crate) struct Stretch {
    pub(crate) start: usize,
    pub(crate) own: Ident,
    pub(crate) sample: Changeset,
    pub(crate) lane: Regions,
}

/// What a stretch tells of the changeset at a place, and the length of the list on which that acts; none where it doesn't lie in
/// the stretch.
pub(crate) fn told_at(stretch: &Option<Stretch>, place: usize) -> Option<(Option<Op>, u32)>
    ensures told { IsToldAt place stretch.now result }
    ensures fits { IfSome result (λ p. Fits p.1 p.0) }
{
    match stretch {
        Some(stretch) => slot_at(stretch, place),
        None => None,
    }
}

fn slot_at(stretch: &Stretch, place: usize) -> Option<(Option<Op>, u32)>
    ensures told { IsSlotAt place stretch.now result }
    ensures fits { IfSome result (λ p. Fits p.1 p.0) }
{
    if place < stretch.start || place - stretch.start >= stretch.lane.len() {
        return None;
    }
    let at = place - stretch.start;
    Some((stretch.lane.slot(at), stretch.lane.length_before(at)))
}

/// Whether a place lies in the stretch.
pub(crate) fn lies_in(stretch: &Option<Stretch>, place: usize) -> bool
    ensures { IsFalse result → IfSome stretch.now (Outside place) }
{
    match stretch {
        Some(stretch) => { place >= stretch.start && place - stretch.start < stretch.lane.len() }
        None => false,
    }
}

/// What is left of an action that crosses the lane of a stretch, which stays as it is.
pub(crate) fn left_by(stretch: &Stretch, across: &Across) -> Option<ListAction>
    requires { TakesAcross stretch.now across.now }
    ensures { LeavesAction stretch.now across.now result }
{
    let lane = &stretch.lane;
    let _ = lane.first();
    match lane.left(op_of(across.action, across.stamp), true) {
        Some(op) => Some(action_of(op, lane.last())),
        None => None,
    }
}

/// An action crosses the lane of a stretch. Where it would take memory and there is none, the stretch stays as it is.
fn cross_lane(stretch: &mut Stretch, across: &Across) -> Result<(), NoMemory>
    requires { TakesAcross stretch.old across.now }
    ensures crossed { OnOk result (stretch.new ≡ record stretch.old { lane = lane_after (lane_later true) stretch.old.lane (op_across across.now) }) }
    ensures within { Within (kind_of across.now.action) (place_in across.now.action) (prior_in across.now.action) }
    ensures unchanged { OnErr result (stretch.new ≡ stretch.old) }
{
    let op = op_of(across.action, across.stamp);
    stretch.lane.cross(op, true)?;
    Ok(())
}

/// A stretch that doesn't begin with the first of all begins one place sooner, where there is one.
pub(crate) fn step_back(stretch: &mut Option<Stretch>)
    requires { IfSome stretch.old (λ s. 0 < s.start) }
    ensures { StepsBack stretch.old stretch.new }
{
    if let Some(stretch) = stretch {
        stretch.start -= 1;
    }
}

/// What the changeset behind a stretch is in its lane, where it can follow on in that.
fn next_slot(items: &VecDeque<Unsent>, stretch: &Stretch) -> Option<Option<Op>>
    requires { Stands items.now.items stretch.now }
    ensures { IfSome result (Follows items.now.items stretch.now) }
{
    let count = stretch.lane.len();
    let place = stretch.start + count;
    if place >= items.len() || !has_room(stretch.lane.first(), count) {
        return None;
    }
    items[place].slot_in(&stretch.sample, stretch.own, stretch.lane.last())
}

fn push_slot(lane: &mut Regions, slot: Option<Op>) -> Result<(), NoMemory>
    requires fits { Fits (length_at_end lane.old.first lane.old.slots) slot }
    requires room { lane.old.first + length lane.old.slots + 1 < top }
    ensures ok { OnOk result (lane.new ≡ lane_with slot lane.old) }
    ensures unchanged { OnErr result (lane.new ≡ lane.old) }
{
    match slot {
        Some(op) => lane.push(op),
        None => lane.push_empty(),
    }
}

/// The changeset behind a stretch joins it, where it can follow on in its lane. Whether it does.
fn extend(items: &VecDeque<Unsent>, stretch: &mut Stretch) -> bool
    requires { Stands items.now.items stretch.old }
    ensures shown { laid stretch.new.start stretch.new.lane items.now.items ≡ laid stretch.old.start stretch.old.lane items.now.items }
    ensures stands { Stands items.now.items stretch.new }
    ensures start { stretch.new.start ≡ stretch.old.start }
    ensures more { IsTrue result → length stretch.new.lane.slots ≡ length stretch.old.lane.slots + 1 }
{
    match next_slot(items, stretch) {
        Some(slot) => push_slot(&mut stretch.lane, slot).is_ok(),
        None => false,
    }
}

/// The last changeset joins the stretch, where that ends before it.
pub(crate) fn extend_last(items: &VecDeque<Unsent>, stretch: &mut Option<Stretch>)
    requires { IfSome stretch.old (Stands items.now.items) }
    ensures shown { shown_by stretch.new items.now.items ≡ shown_by stretch.old items.now.items }
    ensures stands { IfSome stretch.new (Stands items.now.items) }
{
    if let Some(stretch) = stretch {
        if stretch.start + stretch.lane.len() + 1 == items.len() {
            extend(items, stretch);
        }
    }
}

/// The longest stretch of a client's changesets that begins with the one at a place, or a shorter one where memory runs out; none
/// where that one isn't one list instruction.
fn stretch_from(
    alloc: Global,
    items: &VecDeque<Unsent>,
    own: Ident,
    start: usize,
) -> Option<Stretch>
    requires { start < length items.now.items }
    ensures shown { IfSome result (λ s. laid s.start s.lane items.now.items ≡ items.now.items) }
    ensures stands { IfSome result (Stands items.now.items) }
{
    let first = prior_of(items[start].action()?);
    if first == u32::MAX {
        return None;
    }
    let Ok(sample) = items[start].current() else {
        return None;
    };
    let mut stretch = Stretch {
        start,
        own,
        sample,
        lane: Regions::new(alloc, first),
    };
    while extend(items, &mut stretch) {}
    Some(stretch)
}

/// The first stretch of a client's changesets that has so many.
pub(crate) fn first_stretch(
    alloc: Global,
    items: &VecDeque<Unsent>,
    own: Ident,
    least: usize,
) -> Option<Stretch>
    ensures shown { shown_by result items.now.items ≡ items.now.items }
    ensures stands { IfSome result (Stands items.now.items) }
{
    let mut start = 0;
    while start < items.len() {
        let mut count = 1;
        if let Some(stretch) = stretch_from(alloc, items, own, start) {
            count = stretch.lane.len().max(1);
            if count >= least {
                return Some(stretch);
            }
        }
        start = start.saturating_add(count);
    }
    None
}

/// The first of a stretch is written as it stands, and the stretch begins behind it. It needs no memory.
pub(crate) fn write_first(alloc: Global, items: &mut VecDeque<Unsent>, stretch: &mut Stretch)
    requires some { 0 < length stretch.old.lane.slots }
    requires stands { Stands items.old.items stretch.old }
    ensures shown { laid stretch.new.start stretch.new.lane items.new.items ≡ laid stretch.old.start stretch.old.lane items.old.items }
    ensures stands { Stands items.new.items stretch.new }
    ensures start { stretch.new.start ≡ stretch.old.start + 1 }
    ensures fewer { length stretch.new.lane.slots + 1 ≡ length stretch.old.lane.slots }
{
    let length = stretch.lane.first();
    let slot = stretch.lane.pop_first();
    let unsent = &mut items[stretch.start];
    unsent.tell(alloc, slot, length);
    stretch.start += 1;
}

/// All of a stretch are written as they stand. It needs no memory.
pub(crate) fn write_all(alloc: Global, items: &mut VecDeque<Unsent>, stretch: Stretch)
    requires { Stands items.old.items stretch }
    ensures { items.new.items ≡ laid stretch.start stretch.lane items.old.items }
{
    let mut rest = stretch;
    while rest.lane.len() > 0 {
        write_first(alloc, items, &mut rest);
    }
}

/// Where the place lies in the stretch all of that is written, so that what stands at the place is what is shown there.
pub(crate) fn write_around(
    alloc: Global,
    items: &mut VecDeque<Unsent>,
    stretch: &mut Option<Stretch>,
    place: usize,
)
    requires { IfSome stretch.old (Stands items.old.items) }
    ensures shown { shown_by stretch.new items.new.items ≡ shown_by stretch.old items.old.items }
    ensures stands { IfSome stretch.new (Stands items.new.items) }
    ensures outside { IfSome stretch.new (Outside place) }
{
    if lies_in(stretch, place) {
        write_whole(alloc, items, stretch);
    }
}

/// The whole stretch is written, where there is one.
pub(crate) fn write_whole(
    alloc: Global,
    items: &mut VecDeque<Unsent>,
    stretch: &mut Option<Stretch>,
)
    requires { IfSome stretch.old (Stands items.old.items) }
    ensures shown { items.new.items ≡ shown_by stretch.old items.old.items }
    ensures none { stretch.new ≡ None }
{
    if let Some(whole) = stretch.take() {
        write_all(alloc, items, whole);
    }
}

/// Where the stretch begins with the first of all, that one is written, and the stretch begins behind it.
pub(crate) fn write_head(alloc: Global, items: &mut VecDeque<Unsent>, stretch: &mut Option<Stretch>)
    requires { IfSome stretch.old (Stands items.old.items) }
    ensures shown { shown_by stretch.new items.new.items ≡ shown_by stretch.old items.old.items }
    ensures stands { IfSome stretch.new (Stands items.new.items) }
    ensures behind { IfSome stretch.new (λ s. 0 < s.start) }
{
    let Some(mut rest) = stretch.take() else {
        return;
    };
    if rest.start == 0 {
        if rest.lane.len() == 0 {
            return;
        }
        write_first(alloc, items, &mut rest);
    }
    *stretch = Some(rest);
}

/// So many of them, from a place on, meet an action of another, one after the other. It takes no memory.
pub(crate) fn cross_each(alloc: Global, items: &mut VecDeque<Unsent>, across: Across)
    requires { CanPass across.own across.stamp across.count (Some across.action) (drop across.start items.old.items) }
    ensures { items.new.items ≡ put_across across items.old.items }
{
    let mut left = Some(across.action);
    let mut place = across.start;
    let mut count = across.count;
    while count > 0 {
        let Some(action) = left else {
            return;
        };
        let unsent = &mut items[place];
        left = unsent.meet(alloc, across.own, &action, across.stamp);
        place += 1;
        count -= 1;
    }
}

/// An action crosses the lane of the stretch, where it comes to that and there is memory. Whether it does.
pub(crate) fn cross_at_once(stretch: &mut Option<Stretch>, across: &Across) -> bool
    ensures crossed { IsTrue result → CrossedAt across.now stretch.old stretch.new }
    ensures unchanged { IsFalse result → stretch.new ≡ stretch.old }
{
    if let Some(stretch) = stretch {
        if takes(stretch, across) {
            return cross_lane(stretch, across).is_ok();
        }
    }
    false
}

/// Whether an action that comes to these crosses the lane of a stretch.
pub(crate) fn takes(stretch: &Stretch, across: &Across) -> bool
    ensures takes { IsTrue result → TakesAcross stretch.now across.now }
    ensures chains { Chains stretch.now.lane.first stretch.now.lane.slots }
{
    let (count, first) = (stretch.lane.len(), stretch.lane.first());
    stretch.start == across.start
        && stretch.own == across.own
        && count == across.count
        && first == prior_of(across.action)
        && has_room(first, count)
}

/// Whether a list of that length stays short enough for so many more.
fn has_room(length: u32, count: usize) -> bool
    ensures { IsTrue result → length + count + 1 < top }
{
    let most = u32::MAX as usize;
    count < most && length as usize + count + 1 < most
}
