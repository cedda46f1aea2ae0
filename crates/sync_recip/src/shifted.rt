ghost use Rattle.std.specs.Prelude.{◌≡◌, ℕ, Bool, List, Some, None, Ok, not, [], IfOk, IfSome, IsTrue};
ghost use Rattle.sync_data.specs.declared.instr.Instr.{Instr};
ghost use Rattle.sync_theory.specs.Lists.{cross as crossed};
ghost use Rattle.sync_theory.specs.Changesets.{cross_sets as crossed_sets};
ghost use Rattle.sync_law.specs.Instrs.{meet};
ghost use Rattle.sync_index.specs.Touched.{Covers};
ghost use Rattle.sync_rivals.specs.Lists.{StaysListed};
ghost use Rattle.sync_transform.specs.Sets.{made_by};
ghost use Rattle.list_places.specs.Moves.{action_in as action_told, first_cell, kind_in, kind_of, moved_changes, moved_first};
ghost use Rattle.list_places.specs.declared.moves.ListAction.{ListAction as Action};
ghost use Rattle.list_lane.specs.Lanes.{Fits};
ghost use Rattle.list_lane.specs.Told.{told};
ghost use Rattle.sync_recip.specs.Lists.{entry_of};
ghost use Rattle.sync_recip.specs.Carrying.{became_of, moved_entry, Suits};
ghost use Rattle.list_lane.specs.Actions.{own_left, other_left};
ghost use Rattle.sync_recip.specs.Passing.{change_later, Meets};
ghost use Rattle.sync_recip.specs.Stretches.{holding, IsSlotOf};

use super::carried::Became;
use super::shared::SharedEntry;
use list_lane::{Op, action_left, action_of, parts_of};
use list_places::{ListAction, Moves, action_in, both_move, is_later, same_first_cell, shown};
use std::alloc::Global;
use std::marker::Model;
use sync_base::{Changeset, Entry, Ident, Instr, NoMemory, Stamp};
use sync_index::Index;
use sync_transform::{Shifted, ones_stay, stays_apart};

/// An entry as one client's changes crossed it. Where it is one list instruction that was only shifted, or that fell, others
/// hold it too, and what that instruction does now is kept beside it; and the spot of its changes, so that what an index tells
/// apart isn't looked at.
#[derive(Drop)]
pub(crate) struct ShiftedEntry {
    shared: SharedEntry,
    action: Option<ListAction>,
    spot: Option<u8>,
    fell: bool,
}

impl Model for ShiftedEntry {
    ghost use Rattle.std.specs.Prelude.{◌≡◌};
    ghost use Rattle.std.specs.Option.{option_map};
    ghost use Rattle.sync_data.specs.declared.entry.Entry.{Entry};
    ghost use Rattle.list_places.specs.Moves.{kind_in, kind_of};
    ghost use Rattle.sync_recip.specs.Standing.{stood};

    ghost Value = { Entry };

    ghost view = { λ a. record { origin = a.shared.origin; number = a.shared.number; changes = stood a.fell a.action a.shared.changes } };

    ghost use Rattle.sync_index.specs.Spots.{LieAt};

    ghost invariant = { λ a. (kind_in a.shared.changes.instrs ≡ option_map kind_of a.action) × LieAt a.spot a.shared.changes.instrs };
}

impl ShiftedEntry {
    /// An entry that others may hold, as it is. It takes no memory.
    pub(crate) fn new(shared: SharedEntry) -> ShiftedEntry
        ensures { result ≡ shared }
    {
        let action = action_in(&shared.entry().changes);
        let spot = shared.spot();
        ShiftedEntry {
            shared,
            action,
            spot,
            fell: false,
        }
    }

    pub(crate) fn origin(&self) -> Ident
        ensures { result ≡ self.now.origin }
    {
        self.shared.entry().origin
    }

    pub(crate) fn number(&self) -> u32
        ensures { result ≡ self.now.number }
    {
        self.shared.entry().number
    }

    fn ms(&self) -> u64
        ensures { result ≡ self.now.changes.ms }
    {
        self.shared.entry().changes.ms()
    }

    fn stamp(&self) -> Stamp
        ensures { result ≡ record { ms = self.now.changes.ms; ident = self.now.origin } }
    {
        Stamp {
            ms: self.ms(),
            ident: self.origin(),
        }
    }

    /// What it does, where it is one list instruction.
    #[inline(always)]
    pub(crate) fn action(&self) -> Option<ListAction>
        ensures { result ≡ action_told self.now.changes.instrs }
    {
        if self.fell { None } else { self.action }
    }

    /// Whether it is known to be of the cell of that changeset.
    #[inline(always)]
    pub(crate) fn is_in_cell_of(&self, changes: &Changeset) -> bool
        ensures { IsTrue result → first_cell changes.now.instrs ≡ first_cell self.now.changes.instrs }
    {
        if self.fell {
            return false;
        }
        same_first_cell(changes, &self.shared.entry().changes)
    }

    /// What it holds with others, by which the cell of a lane that it is in is known.
    pub(crate) fn sample(&self) -> Result<SharedEntry, NoMemory>
        ensures { IfOk result (λ sample. StaysListed sample.changes.instrs self.now.changes.instrs) }
    {
        self.shared.share()
    }

    /// Whether nothing of its changes is left.
    fn is_nothing(&self) -> bool
        ensures { IsTrue result → self.now.changes.instrs ≡ [] }
    {
        if self.fell {
            return true;
        }
        self.shared.entry().changes.instrs().is_empty()
    }

    /// What it is in a lane, where it is one list instruction of the cell of a changeset, and acts on a list of that length, or
    /// where nothing of it is left.
    pub(crate) fn slot_in(&self, cell: &Changeset, length: u32) -> Option<Option<Op>>
        ensures { IfSome result (IsSlotOf self.now (first_cell cell.now.instrs) length) }
    {
        if self.is_nothing() {
            return Some(None);
        }
        match self.op_in(cell, length) {
            None => None,
            slot => Some(slot),
        }
    }

    fn op_in(&self, cell: &Changeset, length: u32) -> Option<Op>
        ensures { IfSome result (λ op. IsSlotOf self.now (first_cell cell.now.instrs) length (Some op)) }
    {
        let action = self.action()?;
        let (does, place, prior) = parts_of(&action);
        if prior != length || !self.is_in_cell_of(cell) {
            return None;
        }
        let stamp = self.stamp();
        Some(Op { does, place, stamp })
    }

    /// Its changes.
    pub(crate) fn changes(&self, alloc: Global) -> Result<Changeset, NoMemory>
        ensures { IfOk result (λ changes. changes ≡ self.now.changes) }
    {
        if self.fell {
            return Ok(nothing(alloc, self.ms()));
        }
        shown(&self.shared.entry().changes, self.action)
    }

    /// Its changes with its one list instruction as a slot of a lane tells it, which acts on a list of that length.
    pub(crate) fn changes_told(
        &self,
        alloc: Global,
        slot: Option<Op>,
        length: u32,
    ) -> Result<Changeset, NoMemory>
        requires fits { Fits length slot }
        requires kind { IfSome slot (λ a. kind_in self.now.changes.instrs ≡ Some a.does) }
        ensures { IfOk result (λ changes. changes ≡ record { ms = self.now.changes.ms; instrs = told length slot self.now.changes.instrs }) }
    {
        match slot {
            Some(op) => shown(&self.shared.entry().changes, Some(action_of(op, length))),
            None => Ok(nothing(alloc, self.ms())),
        }
    }

    /// Its instructions as an index lists them, which asks nothing of where one of a list stands.
    pub(crate) fn instrs(&self) -> &[Instr]
        ensures { StaysListed result.now self.now.changes.instrs }
    {
        self.shared.entry().changes.instrs()
    }

    /// Whether it has just these changes. It may say no where it has, if it was shifted.
    pub(crate) fn is(&self, changes: &Changeset) -> bool
        ensures { IsTrue result → changes.now ≡ self.now.changes }
    {
        if self.fell {
            return false;
        }
        match self.action {
            Some(_) => false,
            None => *changes == self.shared.entry().changes,
        }
    }

    /// What a change of another and it do after they crossed, where each is one instruction of one list, and both stay.
    #[inline(always)]
    pub(crate) fn moves(&self, left: &Shifted, own: Ident) -> Option<Moves>
        ensures crosses { IfSome result (λ m. (number : ℕ) → crossed_sets meet (made_by own number left.now) (entry_of self.now) ≡ Ok (made_by own number (moved_changes m.left left.now), moved_entry m.right (entry_of self.now))) }
        ensures left { IfSome result (λ m. kind_in left.now.instrs ≡ Some (kind_of m.left)) }
        ensures right { IfSome result (λ m. kind_in self.now.changes.instrs ≡ Some (kind_of m.right)) }
    {
        let (action, other) = (left.action()?, self.action()?);
        if !self.is_in_cell_of(left.written()) {
            return None;
        }
        let left_later = is_later(
            Stamp {
                ms: left.ms(),
                ident: own,
            },
            self.stamp(),
        );
        both_move(action, other, left_later)
    }

    /// Whether an index tells that it meets nothing of what that is of, also where its one list instruction does the same
    /// elsewhere.
    #[inline(always)]
    pub(crate) fn stays_apart(&self, index: &Index) -> bool
        ensures own { IsTrue result → (others : List Instr) → Covers index.now others → (later : Bool) → crossed (λ a b. meet a b later) others self.now.changes.instrs ≡ Ok (others, self.now.changes.instrs) }
        ensures told { IsTrue result → (action : Action) → kind_in self.now.changes.instrs ≡ Some (kind_of action) → (others : List Instr) → Covers index.now others → (later : Bool) → crossed (λ a b. meet a b later) others (moved_first action self.now.changes.instrs) ≡ Ok (others, moved_first action self.now.changes.instrs) }
    {
        if self.fell {
            return true;
        }
        stays_apart(self.spot, &self.shared.entry().changes, index)
    }

    /// Whether it is plain that a change and it stay as they are, also where its one list instruction does the same elsewhere.
    pub(crate) fn stays(&self, changes: &Shifted) -> bool
        ensures own { IsTrue result → (later : Bool) → crossed (λ a b. meet a b later) changes.now.instrs self.now.changes.instrs ≡ Ok (changes.now.instrs, self.now.changes.instrs) }
        ensures told { IsTrue result → (action : Action) → kind_in self.now.changes.instrs ≡ Some (kind_of action) → (later : Bool) → crossed (λ a b. meet a b later) changes.now.instrs (moved_first action self.now.changes.instrs) ≡ Ok (changes.now.instrs, moved_first action self.now.changes.instrs) }
    {
        if self.fell {
            return true;
        }
        ones_stay(changes.written(), &self.shared.entry().changes)
    }

    /// Its one list instruction does the same elsewhere. It takes no memory, and those who hold it too don't see it.
    #[inline(always)]
    pub(crate) fn shift_to(&mut self, action: ListAction)
        requires { kind_in self.old.changes.instrs ≡ Some (kind_of action) }
        ensures { self.new ≡ record self.old { changes = moved_changes action self.old.changes } }
    {
        self.action = Some(action);
    }

    /// It became another.
    pub(crate) fn stand_as(&mut self, became: Became)
        requires { Suits became self.old.changes.instrs }
        ensures { entry_of self.new ≡ became_of became (entry_of self.old) }
    {
        match became {
            Became::Moved(action) => self.shift_to(action),
            Became::Changed(entry) => *self = ShiftedEntry::new(entry),
        }
    }

    /// Nothing of its one list instruction is left. It takes no memory.
    fn fall(&mut self)
        ensures { self.new ≡ holding [] self.old }
    {
        self.fell = true;
    }

    /// Its one list instruction stands as a slot of a lane tells it, which acts on a list of that length. It takes no memory.
    pub(crate) fn tell(&mut self, slot: Option<Op>, length: u32)
        requires fits { Fits length slot }
        requires kind { IfSome slot (λ a. kind_in self.old.changes.instrs ≡ Some a.does) }
        ensures { self.new ≡ holding (told length slot self.old.changes.instrs) self.old }
    {
        match slot {
            Some(op) => self.shift_to(action_of(op, length)),
            None => self.fall(),
        }
    }

    /// Its one list instruction, if it has one, meets an action of a change in that list: what is left of that. It takes no
    /// memory.
    pub(crate) fn meet(&mut self, action: &ListAction, stamp: Stamp) -> Option<ListAction>
        requires { Meets self.old.changes.instrs action.now }
        ensures own { self.new ≡ holding (own_left (not (change_later stamp (entry_of self.old))) (action_told self.old.changes.instrs) action.now self.old.changes.instrs) self.old }
        ensures other { result ≡ other_left (change_later stamp (entry_of self.old)) (action_told self.old.changes.instrs) action.now }
    {
        let Some(mine) = self.action() else {
            return Some(*action);
        };
        let later = is_later(stamp, self.stamp());
        let (stays, left) = (
            action_left(!later, &mine, action),
            action_left(later, action, &mine),
        );
        match stays {
            Some(action) => self.shift_to(action),
            None => self.fall(),
        }
        left
    }
}

/// No instruction, at that time. It takes no memory.
pub(crate) fn nothing(alloc: Global, ms: u64) -> Changeset
    ensures { result ≡ record { ms = ms; instrs = [] } }
{
    Changeset::checked(ms, Vec::new(alloc)).unwrap()
}
