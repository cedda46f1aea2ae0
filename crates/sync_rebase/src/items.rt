ghost use Rattle.std.specs.Prelude.{◌≡◌, ◌<◌, ◌↔◌, ◌++◌, ◌∷◌, [], List, Bool, ℕ, Some, Ok, IsTrue, IsSome, IfOk, IfSome, OnOk, OnErr, drop, length, slice_index_or};
ghost use Rattle.sync_data.specs.declared.instr.Instr.{Instr};
ghost use Rattle.sync_theory.specs.Grid.{tail};
ghost use Rattle.sync_theory.specs.Lists.{cross as crossed};
ghost use Rattle.sync_law.specs.Instrs.{meet};
ghost use Rattle.sync_index.specs.Touched.{Covers};
ghost use Rattle.sync_model.specs.Clients as clients;
ghost use Rattle.sync_rivals.specs.Lists.{StandsAt, StaysListed};
ghost use Rattle.sync_rebase.specs.Acrossing.{BothMove, CrossesStretch};
ghost use Rattle.sync_rebase.specs.Settling.{CanPass, FitsAt, currents, put_across, put_became};
ghost use Rattle.sync_rebase.specs.Stretches.{IsAt};
ghost use Rattle.sync_rebase.specs.Taking.{IsHead};

use super::carried::{Across, Became};
use super::original::Original;
use super::stretch::{
    Stretch, cross_at_once, cross_each, extend_last, first_stretch, left_by, lies_in, step_back,
    takes, told_at, write_around, write_head, write_whole,
};
use super::unsent::Unsent;
use list_places::{ListAction, Moves, same_first_cell};
use std::alloc::Global;
use std::collections::VecDeque;
use std::marker::Model;
use sync_data::{Changeset, Entry, Ident, Instr, NoMemory, Stamp};
use sync_index::Index;
use sync_transform::Shifted;

/// Unsent changesets, from the oldest on. Of a stretch of them what they do now is kept in a lane, and written once one of them
/// is looked at.
#[derive(Drop)]
pub(crate) struct Items {
    alloc: Global,
    items: VecDeque<Unsent>,
    stretch: Option<Stretch>,
}

impl Model for Items {
    ghost use Rattle.std.specs.Prelude.{List, IfSome};
    ghost use Rattle.sync_data.specs.declared.instr.Instr.{Instr};
    ghost use Rattle.sync_model.specs.Clients as clients;

    ghost Value = { List (clients.Unsent Instr) };

    ghost use Rattle.sync_rebase.specs.Stretches.{shown_by, Stands};

    ghost view = { λ a. shown_by a.stretch a.items.items };

    ghost invariant = { λ a. IfSome a.stretch (Stands a.items.items) };
}

/// An action that crosses a stretch, and what is left of it.
#[derive(Clone, Copy)]
pub(crate) struct Passing {
    pub(crate) across: Across,
    pub(crate) left: Option<ListAction>,
}

impl Items {
    pub(crate) fn new(alloc: Global) -> Items
        ensures { result ≡ [] }
    {
        Items {
            alloc,
            items: VecDeque::new(alloc),
            stretch: None,
        }
    }

    pub(crate) fn len(&self) -> usize
        ensures { result ≡ length self.now }
    {
        self.items.len()
    }

    pub(crate) fn push(&mut self, unsent: Unsent) -> Result<(), NoMemory>
        ensures ok { OnOk result (self.new ≡ self.old ++ unsent ∷ []) }
        ensures unchanged { OnErr result (self.new ≡ self.old) }
    {
        push_back(&mut self.items, unsent)?;
        extend_last(&self.items, &mut self.stretch);
        Ok(())
    }

    /// The changeset at a place as it was made.
    pub(crate) fn original(&self, place: usize) -> Option<&Original>
        ensures there { IsSome result ↔ (place < length self.now) }
        ensures value { IfSome result (λ o. (u : clients.Unsent Instr) → IsAt place self.now u → o.now ≡ u.original) }
    {
        if place >= self.items.len() {
            return None;
        }
        let unsent = &self.items[place];
        Some(unsent.original())
    }

    /// A copy of the changeset at a place as it was rebased since.
    pub(crate) fn current(&self, place: usize) -> Result<Changeset, NoMemory>
        requires { place < length self.now }
        ensures { IfOk result (λ c. (u : clients.Unsent Instr) → IsAt place self.now u → c ≡ record { ms = u.original.ms; instrs = u.current }) }
    {
        let unsent = &self.items[place];
        match told_at(&self.stretch, place) {
            Some((slot, length)) => unsent.current_told(self.alloc, slot, length),
            None => unsent.current(),
        }
    }

    /// Instructions under whose places an index may list those of the changeset at a place.
    pub(crate) fn listed(&self, place: usize) -> &[Instr]
        requires { place < length self.now }
        ensures { (l : List Instr) → StandsAt place l (currents self.now) → StaysListed result.now l }
    {
        self.items[place].listed()
    }

    /// The number of the changeset at a place.
    pub(crate) fn number(&self, place: usize) -> u32
        requires { place < length self.now }
        ensures { (u : clients.Unsent Instr) → IsAt place self.now u → result ≡ u.original.number }
    {
        let unsent = &self.items[place];
        unsent.original().number()
    }

    /// Whether an index tells that the changeset at a place meets nothing of what that is of.
    #[inline(always)]
    pub(crate) fn stays_apart(&self, place: usize, index: &Index) -> bool
        requires { place < length self.now }
        ensures { IsTrue result → (u : clients.Unsent Instr) → IsAt place self.now u → (others : List Instr) → Covers index.now others → (later : Bool) → crossed (λ a b. meet a b later) u.current others ≡ Ok (u.current, others) }
    {
        let unsent = &self.items[place];
        unsent.stays_apart(index)
    }

    /// Whether the changeset at a place and one of another, of which there is an index, are told to stay as they are. Neither is
    /// copied.
    pub(crate) fn stays(&self, place: usize, changes: &Shifted, index: &Index) -> bool
        requires { place < length self.now }
        ensures { IsTrue result → (u : clients.Unsent Instr) → IsAt place self.now u → Covers index.now changes.now.instrs → (later : Bool) → crossed (λ a b. meet a b later) u.current changes.now.instrs ≡ Ok (u.current, changes.now.instrs) }
    {
        let unsent = &self.items[place];
        self.stays_apart(place, index) || unsent.stays(changes)
    }

    /// What the changeset at a place and one of another do after they crossed, where each is one instruction of one list, and
    /// both stay. Where the place lies in the stretch, all of that is written, unless an index tells that they don't meet.
    #[inline(always)]
    pub(crate) fn moves(
        &mut self,
        place: usize,
        own: Ident,
        changes: &Shifted,
        origin: Ident,
        index: &Index,
    ) -> Option<Moves>
        requires { place < length self.old }
        ensures same { self.new ≡ self.old }
        ensures moves { (u : clients.Unsent Instr) → IsAt place self.old u → IfSome result (BothMove own u origin changes.now) }
    {
        if lies_in(&self.stretch, place) && self.items[place].stays_apart(index) {
            return None;
        }
        write_around(self.alloc, &mut self.items, &mut self.stretch, place);
        let unsent = &self.items[place];
        unsent.moves(own, changes, origin)
    }

    /// What an entry that came as far as one place does to the stretch around another, which it would meet next: where it is one
    /// list instruction of that cell, and was made on the list on which the first of the stretch acts.
    pub(crate) fn across(
        &self,
        from: usize,
        place: usize,
        own: Ident,
        changes: &Shifted,
        origin: Ident,
    ) -> Option<Passing>
        ensures { IfSome result (CrossesStretch from place own self.now origin changes.now) }
    {
        let Some(stretch) = &self.stretch else {
            return None;
        };
        let action = changes.action()?;
        let across = Across {
            start: stretch.start,
            count: stretch.lane.len(),
            own,
            action,
            stamp: Stamp {
                ms: changes.ms(),
                ident: origin,
            },
        };
        if from > across.start || place < across.start || place - across.start >= across.count {
            return None;
        }
        if !takes(stretch, &across) || !same_first_cell(&stretch.sample, changes.written()) {
            return None;
        }
        let left = left_by(stretch, &across);
        Some(Passing { across, left })
    }

    /// The changeset at a place became another.
    pub(crate) fn put(&mut self, place: usize, became: Became)
        requires { FitsAt place became self.old }
        ensures { self.new ≡ put_became place became self.old }
    {
        write_around(self.alloc, &mut self.items, &mut self.stretch, place);
        let unsent = &mut self.items[place];
        unsent.stand_as(became);
    }

    /// Those of a stretch meet an action of another: at once, or one by one where the lane would take memory and there is none.
    pub(crate) fn cross(&mut self, across: Across)
        requires { CanPass across.own across.stamp across.count (Some across.action) (drop across.start self.old) }
        ensures { self.new ≡ put_across across self.old }
    {
        if cross_at_once(&mut self.stretch, &across) {
            return;
        }
        write_whole(self.alloc, &mut self.items, &mut self.stretch);
        cross_each(self.alloc, &mut self.items, across);
    }

    /// Whether the entry is the oldest changeset. It needs no memory.
    pub(crate) fn is_head(&mut self, entry: &Entry) -> bool
        ensures same { self.new ≡ self.old }
        ensures told { IsTrue result ↔ IsHead entry.now self.old }
    {
        if self.items.len() == 0 {
            return false;
        }
        write_head(self.alloc, &mut self.items, &mut self.stretch);
        let head = &mut self.items[0];
        head.is_of(self.alloc, entry)
    }

    /// Takes the oldest changeset out, where there is one. It needs no memory.
    pub(crate) fn drop_first(&mut self)
        ensures { self.new ≡ tail self.old }
    {
        write_head(self.alloc, &mut self.items, &mut self.stretch);
        drop_front(&mut self.items);
        step_back(&mut self.stretch);
    }

    /// The first so many changesets in a row of one list instruction each, of one cell, that follow on get a lane, unless there is
    /// one. Where memory runs out they get a shorter one, or none.
    pub(crate) fn join(&mut self, own: Ident, least: usize)
        ensures { self.new ≡ self.old }
    {
        if self.stretch.is_none() {
            self.stretch = first_stretch(self.alloc, &self.items, own, least);
        }
    }

    /// An equal list.
    pub(crate) fn copy(&self, alloc: Global) -> Result<Items, NoMemory>
        ensures { IfOk result (λ copy. copy ≡ self.now) }
    {
        let mut items = VecDeque::new(alloc);
        for place in 0..self.items.len() {
            let current = self.current(place)?;
            let unsent = self.items[place].copy_as(current)?;
            push_back(&mut items, unsent)?;
        }
        Ok(Items {
            alloc,
            items,
            stretch: None,
        })
    }
}

fn push_back<T: Drop>(items: &mut VecDeque<T>, item: T) -> Result<(), NoMemory>
    ensures ok { OnOk result (items.new.items ≡ items.old.items ++ item ∷ []) }
    ensures unchanged { OnErr result (items.new.items ≡ items.old.items) }
{
    match items.push_back(item) {
        Ok(()) => Ok(()),
        Err(_) => Err(NoMemory),
    }
}

fn drop_front(items: &mut VecDeque<Unsent>)
    ensures { items.new.items ≡ tail items.old.items }
{
    items.pop_front();
}
