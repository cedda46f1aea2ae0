ghost use Rattle.std.specs.Prelude.{◌≡◌, ◌<◌, ◌≤◌, ◌+◌, ◌++◌, ◌∷◌, [], List, Bool, ℕ, Ok, IsTrue, IfOk, IfSome, OnOk, OnErr, All, drop, length, map, take};
ghost use Rattle.sync_data.specs.declared.instr.Instr.{Instr};
ghost use Rattle.sync_theory.specs.Lists.{cross as crossed};
ghost use Rattle.sync_law.specs.Instrs.{meet};
ghost use Rattle.sync_index.specs.Touched.{Covers};
ghost use Rattle.sync_rivals.specs.Lists.{StandsAt, StaysListed};
ghost use Rattle.sync_recip.specs.Acrossing.{put_across, BothMove, CanCross, CrossesStretch};
ghost use Rattle.sync_recip.specs.Carrying.{with_crossed, LeftAt};
ghost use Rattle.sync_recip.specs.Lists.{kept_entry, lists_in, versions, IsRising};
ghost use Rattle.sync_recip.specs.Stretches.{instrs_in, IsAt};
ghost use Rattle.sync_recip.specs.declared.kept.Kept.{Kept as KeptOne};

use super::across::Across;
use super::carried::Became;
use super::carry::keep;
use super::kept::{Kept, count_below};
use super::stretch::{
    Stretch, cross_at_once, cross_each, extend_last, first_stretch, left_by, takes, told_at,
    write_around, write_before, write_whole,
};
use list_places::{ListAction, Moves, same_first_cell};
use std::alloc::Global;
use std::marker::Model;
use sync_base::{Changeset, Entry, Ident, Instr, NoMemory, Stamp};
use sync_index::Index;
use sync_transform::Shifted;

/// Entries as one client's changes crossed them, and their versions. Of a stretch of them what they do now is kept in a lane,
/// and written once one of them is looked at.
#[derive(Drop)]
pub(crate) struct Items {
    alloc: Global,
    kept: Vec<Kept>,
    stretch: Option<Stretch>,
}

impl Model for Items {
    ghost use Rattle.std.specs.Prelude.{List, IfSome};
    ghost use Rattle.sync_recip.specs.declared.kept.Kept.{Kept as KeptOne};

    ghost Value = { List KeptOne };

    ghost use Rattle.sync_recip.specs.Stretches.{shown_by, Stands};

    ghost view = { λ a. shown_by a.stretch a.kept.items };

    ghost invariant = { λ a. IfSome a.stretch (Stands a.kept.items) };
}

/// An action that crosses a stretch, and what is left of it.
#[derive(Clone, Copy)]
pub(crate) struct Passing {
    pub(crate) across: Across,
    pub(crate) left: Option<ListAction>,
}

impl Items {
    pub(crate) fn new(alloc: Global) -> Items
        ensures { result ≡ [] }
    {
        Items {
            alloc,
            kept: Vec::new(alloc),
            stretch: None,
        }
    }

    pub(crate) fn len(&self) -> usize
        ensures { result ≡ length self.now }
    {
        self.kept.len()
    }

    /// The place of an entry whose place is counted from another one on, and no further than the end.
    pub(crate) fn place_behind(&self, first: usize, place: usize) -> usize
        requires { first + place ≤ length self.now }
        ensures { result ≡ first + place }
    {
        first.saturating_add(place).min(self.kept.len())
    }

    pub(crate) fn push(&mut self, kept: Kept) -> Result<(), NoMemory>
        ensures ok { OnOk result (self.new ≡ self.old ++ kept ∷ []) }
        ensures unchanged { OnErr result (self.new ≡ self.old) }
    {
        match keep(&mut self.kept, kept) {
            Ok(()) => {
                extend_last(self.kept.as_slice(), &mut self.stretch);
                Ok(())
            }
            Err(NoMemory) => Err(NoMemory),
        }
    }

    /// How many have a version below the base.
    pub(crate) fn count_below(&self, base: u32) -> usize
        requires { IsRising (versions self.now) }
        ensures bound { result ≤ length self.now }
        ensures below { All (λ k. k.version < base) (take result self.now) }
        ensures above { All (λ k. base ≤ k.version) (drop result self.now) }
    {
        count_below(self.kept.as_slice(), base)
    }

    /// The version of the entry at a place.
    pub(crate) fn version(&self, place: usize) -> u32
        requires { place < length self.now }
        ensures { (k : KeptOne) → IsAt place self.now k → result ≡ k.version }
    {
        self.kept[place].version
    }

    /// Whose the entry at a place is.
    pub(crate) fn origin(&self, place: usize) -> Ident
        requires { place < length self.now }
        ensures { (k : KeptOne) → IsAt place self.now k → result ≡ k.item.origin }
    {
        let one = &self.kept[place];
        one.item.origin()
    }

    /// The number of the entry at a place.
    pub(crate) fn number(&self, place: usize) -> u32
        requires { place < length self.now }
        ensures { (k : KeptOne) → IsAt place self.now k → result ≡ k.item.number }
    {
        let one = &self.kept[place];
        one.item.number()
    }

    /// The changes of the entry at a place.
    pub(crate) fn changes(&self, place: usize) -> Result<Changeset, NoMemory>
        requires { place < length self.now }
        ensures { IfOk result (λ c. (k : KeptOne) → IsAt place self.now k → c ≡ k.item.changes) }
    {
        let one = &self.kept[place];
        match told_at(&self.stretch, place) {
            Some((slot, length)) => one.item.changes_told(self.alloc, slot, length),
            None => one.item.changes(self.alloc),
        }
    }

    /// Whether the entry at a place has just these changes. It may say no where it has.
    pub(crate) fn is(&self, place: usize, changes: &Changeset) -> bool
        requires { place < length self.now }
        ensures { IsTrue result → (k : KeptOne) → IsAt place self.now k → changes.now ≡ k.item.changes }
    {
        let one = &self.kept[place];
        match told_at(&self.stretch, place) {
            Some(_) => false,
            None => one.item.is(changes),
        }
    }

    /// An entry that is equal to the one at a place, for one to hold alone.
    pub(crate) fn copy_of(&self, place: usize) -> Result<Entry, NoMemory>
        requires { place < length self.now }
        ensures { IfOk result (λ e. (k : KeptOne) → IsAt place self.now k → e ≡ k.item) }
    {
        match self.changes(place) {
            Ok(changes) => Ok(Entry {
                origin: self.origin(place),
                number: self.number(place),
                changes,
            }),
            Err(refusal) => Err(refusal),
        }
    }

    /// Instructions under whose places an index may list those of the entry at a place.
    pub(crate) fn listed(&self, place: usize) -> &[Instr]
        requires { place < length self.now }
        ensures { (l : List Instr) → StandsAt place l (lists_in (map kept_entry self.now)) → StaysListed result.now l }
    {
        let one = &self.kept[place];
        one.item.instrs()
    }

    /// Whether an index tells that the entry at a place meets nothing of what that is of.
    #[inline(always)]
    pub(crate) fn stays_apart(&self, place: usize, index: &Index) -> bool
        requires { place < length self.now }
        ensures { IsTrue result → (k : KeptOne) → IsAt place self.now k → (others : List Instr) → Covers index.now others → (later : Bool) → crossed (λ a b. meet a b later) others (instrs_in k) ≡ Ok (others, instrs_in k) }
    {
        let one = &self.kept[place];
        one.item.stays_apart(index)
    }

    /// Whether a change, of which there is an index, and the entry at a place are told to stay as they are. Neither is copied.
    pub(crate) fn stays(&self, place: usize, changes: &Shifted, index: &Index) -> bool
        requires { place < length self.now }
        ensures { IsTrue result → (k : KeptOne) → IsAt place self.now k → Covers index.now changes.now.instrs → (later : Bool) → crossed (λ a b. meet a b later) changes.now.instrs (instrs_in k) ≡ Ok (changes.now.instrs, instrs_in k) }
    {
        let one = &self.kept[place];
        self.stays_apart(place, index) || one.item.stays(changes)
    }

    /// What a change and the entry at a place do after they crossed, where each is one instruction of one list, and both stay.
    /// Where the place lies in the stretch, all of that is written, unless an index tells that they don't meet.
    #[inline(always)]
    pub(crate) fn moves(
        &mut self,
        place: usize,
        left: &Shifted,
        own: Ident,
        index: &Index,
    ) -> Option<Moves>
        requires { place < length self.old }
        ensures same { self.new ≡ self.old }
        ensures moves { (k : KeptOne) → IsAt place self.old k → IfSome result (BothMove own left.now k) }
    {
        if told_at(&self.stretch, place).is_some() && self.stays_apart(place, index) {
            return None;
        }
        write_around(&mut self.kept, &mut self.stretch, place);
        let one = &self.kept[place];
        one.item.moves(left, own)
    }

    /// What a change that came as far as one place does to the stretch around another, which it would meet next: where it is one
    /// list instruction of that cell, and was made on the list on which the first of the stretch acts.
    pub(crate) fn across(
        &self,
        from: usize,
        place: usize,
        own: Ident,
        changes: &Shifted,
    ) -> Option<Passing>
        ensures { IfSome result (CrossesStretch from place own self.now changes.now) }
    {
        let Some(stretch) = &self.stretch else {
            return None;
        };
        let action = changes.action()?;
        let across = Across {
            start: stretch.start,
            count: stretch.lane.len(),
            action,
            stamp: Stamp {
                ms: changes.ms(),
                ident: own,
            },
        };
        if from > across.start || place < across.start || place - across.start >= across.count {
            return None;
        }
        let sample = stretch.sample.entry();
        if !takes(stretch, &across) || !same_first_cell(&sample.changes, changes.written()) {
            return None;
        }
        let left = left_by(stretch, &across);
        Some(Passing { across, left })
    }

    /// The entries before a place leave the stretch. It needs no memory.
    pub(crate) fn leave_before(&mut self, place: usize)
        ensures { self.new ≡ self.old }
    {
        write_before(&mut self.kept, &mut self.stretch, place);
    }

    /// The first so many entries in a row from a place on that a lane can tell get one. Where memory runs out they get a shorter
    /// one, or none.
    pub(crate) fn join(&mut self, from: usize, least: usize)
        ensures { self.new ≡ self.old }
    {
        write_whole(&mut self.kept, &mut self.stretch);
        self.stretch = first_stretch(self.alloc, self.kept.as_slice(), from, least);
    }

    /// The entry at a place became another.
    pub(crate) fn put(&mut self, place: usize, became: Became)
        requires { LeftAt place became (lists_in (map kept_entry self.old)) }
        ensures versions { versions self.new ≡ versions self.old }
        ensures entries { map kept_entry self.new ≡ with_crossed place became (map kept_entry self.old) }
    {
        write_around(&mut self.kept, &mut self.stretch, place);
        let one = &mut self.kept[place];
        one.item.stand_as(became);
    }

    /// Those of a stretch meet an action of a change: at once, or one by one where the lane would take memory and there is none.
    pub(crate) fn cross(&mut self, across: Across)
        requires { CanCross across (map kept_entry self.old) }
        ensures versions { versions self.new ≡ versions self.old }
        ensures entries { map kept_entry self.new ≡ put_across across (map kept_entry self.old) }
    {
        if cross_at_once(&mut self.stretch, &across) {
            return;
        }
        write_whole(&mut self.kept, &mut self.stretch);
        cross_each(&mut self.kept, across);
    }
}
