ghost use Rattle.std.specs.Prelude.{◌≡◌, ◌≢◌, ◌<◌, ◌++◌, ◌∷◌, [], ℕ, Some, Ok, Err, IfOk, IfErr, IfSome, OnOk, length};
ghost use Rattle.sync_theory.specs.Changesets.{cross_sets};
ghost use Rattle.sync_law.specs.Instrs.{meet};
ghost use Rattle.sync_index.specs.Touched.{Covers};
ghost use Rattle.sync_data.specs.declared.instr.Instr.{Instr};
ghost use Rattle.sync_model.specs.Clients as clients;
ghost use Rattle.sync_model.specs.Clients.{changeset_of};
ghost use Rattle.sync_transform.specs.Sets.{made_by};
ghost use Rattle.list_places.specs.Moves.{kind_in, kind_of};
ghost use Rattle.sync_rivals.specs.Lists.{Lists, Serves};
ghost use Rattle.sync_rebase.specs.Settling.{settled, Fits, currents};
ghost use Rattle.sync_rebase.specs.Taking.{Crosses, Refuses};
ghost use Rattle.sync_rebase.specs.Passing.{StopsAt};
ghost use Rattle.sync_rebase.specs.Stretches.{IsAt};
ghost use Rattle.sync_rebase.specs.Acrossing.{changes_left};

use super::carried::{Became, Carried, Crossed};
use super::items::{Items, Passing};
use super::refusal::RebaseRefusal;
use super::unsent::nothing;
use list_places::ListAction;
use long_sets::cross_long_indexed;
use std::alloc::Global;
use sync_data::{Changeset, Entry, Ident};
use sync_index::Index;
use sync_rivals::{Pace, RivalIndex};
use sync_transform::Shifted;

/// Carries an entry of another client over the unsent changesets, from the first on. Those alone that are listed under a
/// place of its rivals are visited; the others stay. Where there are none no index is made. Of two list instructions that
/// only shift each other the places alone are kept, so that neither changeset is copied.
pub(crate) fn carry_over(
    alloc: Global,
    items: &mut Items,
    rivals: &RivalIndex,
    own: Ident,
    entry: Entry,
) -> Result<Carried, RebaseRefusal>
    requires differ { own ≢ entry.origin }
    requires listed { Lists rivals.now (currents items.old) }
    ensures same { items.new ≡ items.old }
    ensures crosses { IfOk result (λ carried. Crosses own items.old entry (settled carried.crossed items.old) carried.changes) }
    ensures fits { IfOk result (λ carried. Fits carried.crossed items.old) }
    ensures refused { IfErr result (Refuses own items.old entry) }
{
    if items.len() == 0 {
        return Ok(Carried::new(entry.changes, Vec::new(alloc)));
    }
    let index = index_of(alloc, &entry.changes)?;
    let codes = codes_of(alloc, rivals, &entry.changes)?;
    walk(alloc, items, rivals, own, entry, &index, &codes)
}

/// The same by an index of the entry and the codes of its rivals, which are those of the entry as carried, too.
fn walk(
    alloc: Global,
    items: &mut Items,
    rivals: &RivalIndex,
    own: Ident,
    entry: Entry,
    index: &Index,
    codes: &[u64],
) -> Result<Carried, RebaseRefusal>
    requires differ { own ≢ entry.origin }
    requires listed { Lists rivals.now (currents items.old) }
    requires indexed { Covers index.now entry.changes.instrs }
    requires served { Serves rivals.now codes.now entry.changes.instrs }
    ensures same { items.new ≡ items.old }
    ensures crosses { IfOk result (λ carried. Crosses own items.old entry (settled carried.crossed items.old) carried.changes) }
    ensures fits { IfOk result (λ carried. Fits carried.crossed items.old) }
    ensures refused { IfErr result (Refuses own items.old entry) }
{
    let origin = entry.origin;
    let mut changes = Shifted::new(entry.changes);
    let mut crossed = Vec::new(alloc);
    let mut pace = Pace::new();
    let end = items.len();
    let mut from = 0;
    while from < end {
        let place = rivals.next(&mut pace, codes, changes.is_empty(), from, end);
        if place >= end {
            return Ok(Carried::new(changes.into_changes(), crossed));
        }
        if let Some(passing) = items.across(from, place, own, &changes, origin) {
            let Passing { across, left } = passing;
            changes = passed_on(alloc, changes, left);
            from = across.start + across.count;
            push(&mut crossed, Crossed::Stretch(across))?;
            continue;
        }
        from = place + 1;
        if let Some(moves) = items.moves(place, own, &changes, origin, index) {
            changes.shift_to(moves.right);
            let became = Became::Moved(moves.left);
            push(&mut crossed, Crossed::One { place, became })?;
            continue;
        }
        if items.stays(place, &changes, index) {
            continue;
        }
        match pass(
            alloc,
            items,
            place,
            own,
            changes.into_changes(),
            origin,
            index,
        ) {
            Err(refusal) => return Err(refusal),
            Ok((current, carried)) => {
                changes = Shifted::new(carried);
                let became = Became::Changed(current);
                push(&mut crossed, Crossed::One { place, became })?;
            }
        }
    }
    Ok(Carried::new(changes.into_changes(), crossed))
}

/// The changes with what is left of their one list instruction.
fn passed_on(alloc: Global, changes: Shifted, left: Option<ListAction>) -> Shifted
    requires { IfSome left (λ a. kind_in changes.instrs ≡ Some (kind_of a)) }
    ensures { result ≡ changes_left left changes }
{
    let mut changes = changes;
    match left {
        Some(action) => {
            changes.shift_to(action);
            changes
        }
        None => Shifted::new(nothing(alloc, changes.ms())),
    }
}

fn codes_of(
    alloc: Global,
    rivals: &RivalIndex,
    changes: &Changeset,
) -> Result<Vec<u64>, RebaseRefusal>
    ensures served { IfOk result (λ codes. Serves rivals.now codes.items changes.now.instrs) }
    ensures memory { IfErr result (λ refusal. refusal ≡ RebaseRefusal.NoMemory) }
{
    match rivals.rivals_of(alloc, changes.instrs()) {
        Ok(codes) => Ok(codes),
        Err(_) => Err(RebaseRefusal::NoMemory),
    }
}

/// The unsent changeset at a place crosses a changeset of another client: both as crossed.
fn pass(
    alloc: Global,
    items: &Items,
    place: usize,
    own: Ident,
    changes: Changeset,
    origin: Ident,
    index: &Index,
) -> Result<(Changeset, Changeset), RebaseRefusal>
    requires within { place < length items.now }
    requires differ { own ≢ origin }
    requires indexed { Covers index.now changes.instrs }
    ensures ok { IfOk result (λ p. (u : clients.Unsent Instr) → IsAt place items.now u → (n : ℕ) → cross_sets meet (changeset_of own u) (made_by origin n changes) ≡ Ok (made_by own u.original.number p.0, made_by origin n p.1)) }
    ensures indexed { IfOk result (λ p. Covers index.now p.1.instrs) }
    ensures stuck { IfErr result (λ refusal. (u : clients.Unsent Instr) → IsAt place items.now u → StopsAt own u origin changes refusal) }
{
    let Ok(current) = items.current(place) else {
        return Err(RebaseRefusal::NoMemory);
    };
    match cross_long_indexed(alloc, current, own, changes, origin, index) {
        Ok(crossed) => Ok(crossed),
        Err(stop) => Err(RebaseRefusal::Mismatch {
            number: items.number(place),
            kind: stop.kind,
        }),
    }
}

fn index_of(alloc: Global, changes: &Changeset) -> Result<Index, RebaseRefusal>
    ensures covers { IfOk result (λ index. Covers index changes.now.instrs) }
    ensures memory { IfErr result (λ refusal. refusal ≡ RebaseRefusal.NoMemory) }
{
    match Index::of(alloc, changes.instrs()) {
        Ok(index) => Ok(index),
        Err(_) => Err(RebaseRefusal::NoMemory),
    }
}

fn push<T: Drop>(items: &mut Vec<T>, item: T) -> Result<(), RebaseRefusal>
    ensures ok { OnOk result (items.new.items ≡ items.old.items ++ item ∷ []) }
    ensures memory { IfErr result (λ refusal. refusal ≡ RebaseRefusal.NoMemory) }
{
    match items.push(item) {
        Ok(()) => Ok(()),
        Err(_) => Err(RebaseRefusal::NoMemory),
    }
}
