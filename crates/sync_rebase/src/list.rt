ghost use Rattle.std.specs.Prelude.{◌≡◌, ◌≢◌, ◌<◌, ◌↔◌, ◌++◌, ◌∷◌, [], IsTrue, IsSome, IfOk, IfErr, IfSome, OnOk, OnErr, Some, drop, length};
ghost use Rattle.sync_data.specs.declared.instr.Instr.{Instr};
ghost use Rattle.sync_model.specs.Clients as clients;
ghost use Rattle.sync_theory.specs.Grid.{tail};
ghost use Rattle.sync_rebase.specs.Taking.{Crosses, IsHead, Refuses};
ghost use Rattle.sync_rebase.specs.Settling.{settled, CanPass, Fits, FitsAt, FitsCrossed, put_across, put_became, put_crossed};
ghost use Rattle.sync_rebase.specs.Stretches.{IsAt};

use super::carried::{Across, Became, Carried, Crossed};
use super::carry::carry_over;
use super::items::Items;
use super::original::Original;
use super::refusal::RebaseRefusal;
use super::unsent::Unsent;
use list_places::ListAction;
use std::alloc::Global;
use std::marker::Model;
use sync_data::{Changeset, Entry, Ident, NoMemory};
use sync_rivals::RivalIndex;

/// After so many looks at a changeset it has paid to list it.
const LOOKS: usize = 64;

/// A client's changesets that the server hasn't acknowledged, from the oldest on.
#[derive(Drop)]
pub struct PendingList {
    alloc: Global,
    index: RivalIndex,
    items: Items,
    crossed: usize,
}

impl Model for PendingList {
    ghost use Rattle.std.specs.Prelude.{List};
    ghost use Rattle.sync_data.specs.declared.instr.Instr.{Instr};
    ghost use Rattle.sync_model.specs.Clients as clients;

    ghost Value = { List (clients.Unsent Instr) };

    ghost view = { λ a. a.items };

    ghost use Rattle.sync_rivals.specs.Lists.{Lists};
    ghost use Rattle.sync_rebase.specs.Settling.{currents};

    ghost invariant = { λ a. Lists a.index (currents a.items) };
}

impl PendingList {
    /// The empty list. It takes no memory.
    pub fn new(alloc: Global) -> PendingList
        ensures { result ≡ [] }
    {
        PendingList {
            alloc,
            index: RivalIndex::new(alloc),
            items: Items::new(alloc),
            crossed: 0,
        }
    }

    /// Puts a changeset at the end.
    pub fn push(&mut self, unsent: Unsent) -> Result<(), NoMemory>
        ensures ok { OnOk result (self.new ≡ self.old ++ unsent ∷ []) }
        ensures unchanged { OnErr result (self.new ≡ self.old) }
    {
        self.items.push(unsent)
    }

    /// The number of changesets.
    pub fn len(&self) -> usize
        ensures { result ≡ length self.now }
    {
        self.items.len()
    }

    /// Whether there is none.
    pub fn is_empty(&self) -> bool
        ensures { IsTrue result ↔ (self.now ≡ []) }
    {
        self.items.len() == 0
    }

    /// The changeset at a place as it was made, counted from the oldest, or None past the end.
    pub fn get(&self, place: usize) -> Option<&Original>
        ensures there { IsSome result ↔ (place < length self.now) }
        ensures value { IfSome result (λ o. (u : clients.Unsent Instr) → IsAt place self.now u → o.now ≡ u.original) }
    {
        self.items.original(place)
    }

    /// A copy of the changeset at a place as it was rebased since, or None past the end.
    pub fn current(&self, place: usize) -> Option<Result<Changeset, NoMemory>>
        ensures there { IsSome result ↔ (place < length self.now) }
        ensures value { IfSome result (λ r. IfOk r (λ c. (u : clients.Unsent Instr) → IsAt place self.now u → c ≡ record { ms = u.original.ms; instrs = u.current })) }
    {
        if place < self.items.len() {
            Some(self.items.current(place))
        } else {
            None
        }
    }

    /// An equal list.
    pub fn copy(&self, alloc: Global) -> Result<PendingList, NoMemory>
        ensures { IfOk result (λ copy. copy ≡ self.now) }
    {
        match self.items.copy(alloc) {
            Ok(items) => Ok(PendingList {
                alloc,
                index: RivalIndex::new(alloc),
                items,
                crossed: 0,
            }),
            Err(refusal) => Err(refusal),
        }
    }

    /// Whether the entry is the oldest changeset: its number, its time and its instructions as rebased. It needs no memory.
    pub fn is_head(&mut self, entry: &Entry) -> bool
        ensures same { self.new ≡ self.old }
        ensures told { IsTrue result ↔ IsHead entry.now self.old }
    {
        self.items.is_head(entry)
    }

    /// Takes the oldest changeset out, where there is one. It needs no memory.
    pub fn drop_head(&mut self)
        ensures { self.new ≡ tail self.old }
    {
        if self.items.len() == 0 {
            return;
        }
        self.index.drop_first(self.items.listed(0));
        self.items.drop_first();
    }

    /// The changesets stand as they crossed an entry that was carried over them, and the entry is answered as carried. Where
    /// memory runs out fewer of them are indexed.
    pub fn settle(&mut self, carried: Carried) -> Changeset
        requires { Fits carried.crossed self.old }
        ensures list { self.new ≡ settled carried.crossed self.old }
        ensures entry { result ≡ carried.changes }
    {
        let (changes, crossed) = carried.into_parts();
        let count = crossed.len();
        self.put_all(crossed);
        self.list_more(count);
        self.crossed = self.crossed.saturating_add(count);
        changes
    }

    /// An entry of another client as carried over the changesets, from the oldest on, each of them the left side with the
    /// ident `own`; and the changesets that it may touch, as they crossed it. Err(Mismatch) where one can't cross it, with
    /// the first such one's number. The list stays as it is; `settle` puts those that crossed in their places.
    pub fn carry(
        &mut self,
        alloc: Global,
        own: Ident,
        entry: Entry,
    ) -> Result<Carried, RebaseRefusal>
        requires { own ≢ entry.origin }
        ensures same { self.new ≡ self.old }
        ensures crosses { IfOk result (λ carried. Crosses own self.old entry (settled carried.crossed self.old) carried.changes) }
        ensures fits { IfOk result (λ carried. Fits carried.crossed self.old) }
        ensures refused { IfErr result (Refuses own self.old entry) }
    {
        if self.crossed >= LOOKS && self.crossed >= self.items.len() {
            self.crossed = 0;
            self.items.join(own, LOOKS);
        }
        carry_over(alloc, &mut self.items, &self.index, own, entry)
    }

    /// Lists some of the changesets that aren't: as many as crossed, and one in LOOKS of those that were looked at, so that
    /// listing takes about as long as looking. A short list isn't listed.
    fn list_more(&mut self, crossed: usize)
        ensures { self.new ≡ self.old }
    {
        let count = self.items.len();
        if count < LOOKS {
            return;
        }
        let looked = count.saturating_sub(self.index.listed());
        for _ in 0..(looked / LOOKS + 1).saturating_add(crossed) {
            let place = self.index.listed();
            if place >= count {
                return;
            }
            self.index.list(self.items.listed(place));
        }
    }

    /// Puts those that crossed in their places, from the first on.
    fn put_all(&mut self, crossed: Vec<Crossed>)
        requires { Fits crossed.items self.old }
        ensures { self.new ≡ settled crossed.items self.old }
    {
        let mut rest = crossed;
        rest.reverse();
        while let Some(next) = rest.pop() {
            self.put_at(next);
        }
    }

    fn put_at(&mut self, crossed: Crossed)
        requires { FitsCrossed crossed self.old }
        ensures { self.new ≡ put_crossed crossed self.old }
    {
        match crossed {
            Crossed::One { place, became } => match became {
                Became::Moved(action) => self.shift_at(place, action),
                Became::Changed(current) => self.change_at(place, current),
            },
            Crossed::Stretch(across) => self.cross(across),
        }
    }

    /// The one list instruction of a changeset does the same elsewhere. Its home stays, and so does the index.
    fn shift_at(&mut self, place: usize, action: ListAction)
        requires { FitsAt place (Became.Moved action) self.old }
        ensures { self.new ≡ put_became place (Became.Moved action) self.old }
    {
        self.items.put(place, Became::Moved(action));
    }

    fn change_at(&mut self, place: usize, current: Changeset)
        requires { FitsAt place (Became.Changed current) self.old }
        ensures { self.new ≡ put_became place (Became.Changed current) self.old }
    {
        let before = self.items.listed(place);
        self.index.change(place, before, current.instrs());
        self.items.put(place, Became::Changed(current));
    }

    /// Those of a stretch meet an action of another. Their homes stay, and so does the index.
    fn cross(&mut self, across: Across)
        requires { CanPass across.own across.stamp across.count (Some across.action) (drop across.start self.old) }
        ensures { self.new ≡ put_across across self.old }
    {
        self.items.cross(across);
    }
}
