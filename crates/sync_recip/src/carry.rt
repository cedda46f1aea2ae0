ghost use Rattle.std.specs.Prelude.{◌≡◌, ◌≢◌, ◌≤◌, ◌<◌, ◌+◌, ◌-◌, ◌++◌, ◌∷◌, [], ℕ, Ok, Some, OnErr, IfOk, IfErr, IfSome, OnOk, length, map, drop, All};
ghost use Rattle.sync_theory.specs.Changesets.{cross_sets as crossed_sets};
ghost use Rattle.sync_theory.specs.Grid.{carry};
ghost use Rattle.sync_law.specs.Instrs.{meet};
ghost use Rattle.sync_index.specs.Touched.{Covers};
ghost use Rattle.sync_rivals.specs.Lists.{Lists, Serves};
ghost use Rattle.list_places.specs.Moves.{kind_in, kind_of};
ghost use Rattle.sync_transform.specs.Sets.{made_by};
ghost use Rattle.sync_recip.specs.Acrossing.{changes_left};
ghost use Rattle.sync_recip.specs.Lists.{entry_of, kept_entry, lists_in};
ghost use Rattle.sync_recip.specs.Carrying.{AllFit, SuitsIf, crossed_entry, crossed_entries, noted, IsStuckBy};
ghost use Rattle.sync_recip.specs.Stretches.{IsAt};
ghost use Rattle.sync_recip.specs.declared.kept.Kept.{Kept as KeptOne};

use super::across::Across;
use super::carried::{Became, Carried, Crossed};
use super::items::{Items, Passing};
use super::refusal::RecipRefusal;
use super::shared::SharedEntry;
use super::shifted::nothing;
use list_places::ListAction;
use long_sets::cross_long;
use std::alloc::Global;
use sync_base::{Changeset, Entry, Ident, NoMemory};
use sync_index::Index;
use sync_rivals::{Pace, RivalIndex};
use sync_transform::Shifted;

/// A change of a client is carried over the entries of others from the place `first` on. By an index of the change and the
/// codes of its rivals, what it can't meet is passed over.
pub(crate) fn carry_over(
    alloc: Global,
    items: &mut Items,
    rivals: &RivalIndex,
    index: &Index,
    codes: &[u64],
    first: usize,
    own: Ident,
    base: u32,
    changes: Changeset,
) -> Result<Carried, RecipRefusal>
    requires others { All (λ e. e.origin ≢ own) (map kept_entry (drop first items.old)) }
    requires within { first ≤ length items.old }
    requires listed { Lists rivals.now (lists_in (map kept_entry items.old)) }
    requires served { Serves rivals.now codes.now changes.instrs }
    requires indexed { Covers index.now changes.instrs }
    ensures same { items.new ≡ items.old }
    ensures ok { IfOk result (λ c. (number : ℕ) → carry (crossed_sets meet) (made_by own number changes) (map kept_entry (drop first items.old)) ≡ Ok (made_by own number c.changes, crossed_entries c.crossed (map kept_entry (drop first items.old)))) }
    ensures base { IfOk result (λ c. c.base ≡ base) }
    ensures fits { IfOk result (λ c. AllFit c.crossed (map kept_entry (drop first items.old))) }
    ensures stuck { IfErr result (λ e. (number : ℕ) → IsStuckBy e (carry (crossed_sets meet) (made_by own number changes) (map kept_entry (drop first items.old)))) }
{
    let mut left = Shifted::new(changes);
    let mut crossed = Vec::new(alloc);
    let mut pace = Pace::new();
    let end = items.len();
    let mut from = first;
    'entries: loop {
        let next = rivals.next(&mut pace, codes, left.is_empty(), from, end);
        if next >= end {
            return Ok(Carried::new(base, left, crossed));
        }
        if let Some(Passing { across, left: rest }) = items.across(from, next, own, &left) {
            left = passed_on(alloc, left, rest);
            from = across.start + across.count;
            let Ok(()) = keep(&mut crossed, Crossed::Stretch(counted_from(first, across))) else {
                return Err(RecipRefusal::NoMemory);
            };
            continue 'entries;
        }
        from = next + 1;
        if let Some(moves) = items.moves(next, &left, own, index) {
            left.shift_to(moves.left);
            let Ok(()) = note(&mut crossed, next - first, Some(Became::Moved(moves.right))) else {
                return Err(RecipRefusal::NoMemory);
            };
            continue 'entries;
        }
        if items.stays(next, &left, index) {
            continue 'entries;
        }
        match cross_one(alloc, left.into_changes(), own, items, next) {
            Err(refusal) => return Err(refusal),
            Ok((rest, became)) => {
                left = Shifted::new(rest);
                let Ok(()) = note(&mut crossed, next - first, became) else {
                    return Err(RecipRefusal::NoMemory);
                };
            }
        }
    }
}

/// The same stretch, where places are counted from there on.
fn counted_from(first: usize, across: Across) -> Across
    requires { first ≤ across.start }
    ensures { result ≡ record across { start = across.start - first } }
{
    Across {
        start: across.start - first,
        ..across
    }
}

/// The changes with what is left of their one list instruction.
fn passed_on(alloc: Global, changes: Shifted, left: Option<ListAction>) -> Shifted
    requires { IfSome left (λ a. kind_in changes.instrs ≡ Some (kind_of a)) }
    ensures { result ≡ changes_left left changes }
{
    let mut changes = changes;
    match left {
        Some(action) => {
            changes.shift_to(action);
            changes
        }
        None => Shifted::new(nothing(alloc, changes.ms())),
    }
}

/// What is left of a change as it crosses the entry of another at a place, and what became of the entry where it changed.
fn cross_one(
    alloc: Global,
    changes: Changeset,
    own: Ident,
    items: &Items,
    place: usize,
) -> Result<(Changeset, Option<Became>), RecipRefusal>
    requires within { place < length items.now }
    requires other { (k : KeptOne) → IsAt place items.now k → k.item.origin ≢ own }
    ensures ok { IfOk result (λ p. (k : KeptOne) → IsAt place items.now k → (number : ℕ) → crossed_sets meet (made_by own number changes) (kept_entry k) ≡ Ok (made_by own number p.0, crossed_entry p.1 (kept_entry k))) }
    ensures suits { IfOk result (λ p. (k : KeptOne) → IsAt place items.now k → SuitsIf p.1 k.item.changes.instrs) }
    ensures stuck { IfErr result (λ e. (k : KeptOne) → IsAt place items.now k → (number : ℕ) → IsStuckBy e (crossed_sets meet (made_by own number changes) (kept_entry k))) }
{
    let Ok(right) = items.changes(place) else {
        return Err(RecipRefusal::NoMemory);
    };
    match cross_long(alloc, changes, own, right, items.origin(place)) {
        Err(stop) => Err(RecipRefusal::Mismatch {
            place: stop.left_place,
            kind: stop.kind,
        }),
        Ok((left, right)) => match changed(alloc, items, place, right) {
            Ok(became) => Ok((left, became)),
            Err(NoMemory) => Err(RecipRefusal::NoMemory),
        },
    }
}

/// The entry at a place with the changes that it became; none where they are seen to be the ones that it has.
fn changed(
    alloc: Global,
    items: &Items,
    place: usize,
    changes: Changeset,
) -> Result<Option<Became>, NoMemory>
    requires { place < length items.now }
    ensures is { IfOk result (λ became. (k : KeptOne) → IsAt place items.now k → crossed_entry became (kept_entry k) ≡ made_by k.item.origin k.item.number changes) }
    ensures suits { IfOk result (λ became. (k : KeptOne) → IsAt place items.now k → SuitsIf became k.item.changes.instrs) }
{
    if items.is(place, &changes) {
        return Ok(None);
    }
    let changed = Entry {
        origin: items.origin(place),
        number: items.number(place),
        changes,
    };
    match SharedEntry::new(alloc, changed) {
        Ok(shared) => Ok(Some(Became::Changed(shared))),
        Err(NoMemory) => Err(NoMemory),
    }
}

/// Notes what became of the entry at a place, where it changed.
fn note(crossed: &mut Vec<Crossed>, place: usize, became: Option<Became>) -> Result<(), NoMemory>
    ensures { OnOk result (crossed.new.items ≡ crossed.old.items ++ noted place became) }
{
    match became {
        None => Ok(()),
        Some(became) => keep(crossed, Crossed::One { place, became }),
    }
}

/// Puts an item at the end of a list.
pub(crate) fn keep<T: Drop>(list: &mut Vec<T>, item: T) -> Result<(), NoMemory>
    ensures ok { OnOk result (list.new.items ≡ list.old.items ++ item ∷ []) }
    ensures unchanged { OnErr result (list.new.items ≡ list.old.items) }
{
    match list.push(item) {
        Ok(()) => Ok(()),
        Err(_) => Err(NoMemory),
    }
}
