ghost use Rattle.std.specs.Prelude.{◌≡◌, ◌<◌, Some, IfSome, OnSome, List, length, slice_index_or};
ghost use Rattle.sync_data.specs.declared.instr.Instr.{Instr};
ghost use Rattle.sync_rivals.specs.Lists.{Lists};
ghost use Rattle.slot_law.specs.Slots.{alive};
ghost use Rattle.long_sets.specs.Parts.{CrossAll};
ghost use Rattle.long_sets.specs.Rows.{lists_in, somes, Crosses, CrossInTurn, IsPart};

use super::lists::{Stamps, TRIES, cross_by_lists};
use super::row::cross_slots;
use list_places::is_later;
use std::alloc::Global;
use sync_base::Instr;
use sync_rivals::RivalIndex;

/// What is left of the instructions of two changesets, each in its slot, once they crossed; none where they mismatch, or memory
/// runs out.
pub(crate) fn cross_instrs(
    alloc: Global,
    lefts: &[Instr],
    rights: &[Instr],
    stamps: Stamps,
) -> Option<(Vec<Option<Instr>>, Vec<Option<Instr>>)>
    ensures { IfSome result (λ p. CrossAll stamps.left stamps.right (somes lefts.now) (somes rights.now) p.0.items p.1.items) }
{
    let left = slots_of(alloc, lefts)?;
    let right = slots_of(alloc, rights)?;
    cross_by_lists(alloc, left, right, lefts, rights, stamps, TRIES)
}

/// The instructions that are there cross the slots in turn, each by its rivals.
pub(crate) fn cross_others(
    alloc: Global,
    left: &[Option<Instr>],
    right: Vec<Option<Instr>>,
    lefts: &[Instr],
    rights: &[Instr],
    stamps: Stamps,
) -> Option<(Vec<Option<Instr>>, Vec<Option<Instr>>)>
    requires left { IsPart left.now lefts.now }
    requires right { IsPart right.items rights.now }
    ensures { IfSome result (λ p. CrossAll stamps.left stamps.right left.now right.items p.0.items p.1.items) }
{
    let left_later = is_later(stamps.left, stamps.right);
    let mut slots = right;
    let mut index = index_of(alloc, &slots, rights);
    let left = cross_each(
        alloc, left, lefts, &mut slots, &mut index, rights, left_later,
    )?;
    Some((left, slots))
}

fn cross_each(
    alloc: Global,
    left: &[Option<Instr>],
    lefts: &[Instr],
    slots: &mut [Option<Instr>],
    index: &mut RivalIndex,
    rights: &[Instr],
    left_later: bool,
) -> Option<Vec<Option<Instr>>>
    requires left { IsPart left.now lefts.now }
    requires sizes { length slots.old ≡ length rights.now }
    requires listed { Lists index.old (lists_in slots.old) }
    ensures { IfSome result (λ rest. CrossInTurn left_later left.now slots.old rest.items slots.new) }
{
    let mut rest = Vec::new(alloc);
    for place in 0..left.len() {
        let mut now = copy_of(&left[place])?;
        cross_next(
            alloc, &mut now, lefts, place, slots, index, rights, left_later,
        )?;
        let Ok(()) = rest.push(now) else {
            return None;
        };
    }
    Some(rest)
}

/// The instruction at a place, if it is still there, crosses the slots.
fn cross_next(
    alloc: Global,
    now: &mut Option<Instr>,
    lefts: &[Instr],
    place: usize,
    slots: &mut [Option<Instr>],
    index: &mut RivalIndex,
    rights: &[Instr],
    left_later: bool,
) -> Option<()>
    requires within { place < length lefts.now }
    requires written { (a d : Instr) → now.old ≡ Some a → a ≡ slice_index_or lefts.now place d }
    requires sizes { length slots.old ≡ length rights.now }
    requires listed { Lists index.old (lists_in slots.old) }
    ensures crosses { OnSome result (Crosses left_later slots.old now.old slots.new now.new) }
    ensures listed { OnSome result (Lists index.new (lists_in slots.new)) }
{
    if now.is_none() {
        return Some(());
    }
    if index.listed() == 0 {
        return None;
    }
    let Ok(codes) = index.rivals_of(alloc, &lefts[place..place + 1]) else {
        return None;
    };
    let Ok(()) = cross_slots(now, slots, index, rights, codes.as_slice(), left_later) else {
        return None;
    };
    Some(())
}

pub(crate) fn copy_of(slot: &Option<Instr>) -> Option<Option<Instr>>
    ensures { IfSome result (λ copy. copy ≡ slot.now) }
{
    let Some(instr) = slot else {
        return Some(None);
    };
    match instr.copy() {
        Ok(copy) => Some(Some(copy)),
        Err(_) => None,
    }
}

/// A slot for each of the instructions.
fn slots_of(alloc: Global, instrs: &[Instr]) -> Option<Vec<Option<Instr>>>
    ensures { IfSome result (λ slots. slots.items ≡ somes instrs.now) }
{
    let mut slots = Vec::new(alloc);
    for instr in instrs {
        let Ok(copy) = instr.copy() else {
            return None;
        };
        let Ok(()) = slots.push(Some(copy)) else {
            return None;
        };
    }
    Some(slots)
}

/// An index of the slots, of as many as there is memory for; `written` has what came to each.
fn index_of(alloc: Global, slots: &[Option<Instr>], written: &[Instr]) -> RivalIndex
    requires { IsPart slots.now written.now }
    ensures { Lists result (lists_in slots.now) }
{
    let mut index = RivalIndex::new(alloc);
    for _ in 0..written.len() {
        let place = index.listed();
        if place >= written.len() {
            return index;
        }
        index.list(&written[place..place + 1]);
    }
    index
}

/// The instructions that stand.
pub(crate) fn alive_of(alloc: Global, slots: Vec<Option<Instr>>) -> Option<Vec<Instr>>
    ensures { IfSome result (λ instrs. instrs.items ≡ alive slots.items) }
{
    let mut instrs = Vec::new(alloc);
    for slot in slots {
        if let Some(instr) = slot {
            let Ok(()) = instrs.push(instr) else {
                return None;
            };
        }
    }
    Some(instrs)
}
