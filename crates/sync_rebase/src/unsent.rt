ghost use Rattle.std.specs.Prelude.{◌≡◌, ◌≤◌, ◌↔◌, ℕ, Bool, List, [], Some, Ok, not, IfOk, IfSome, IsTrue};
ghost use Rattle.sync_data.specs.declared.instr.Instr.{Instr};
ghost use Rattle.sync_theory.specs.Lists.{cross as crossed};
ghost use Rattle.sync_theory.specs.Changesets.{cross_sets, later_stamp};
ghost use Rattle.sync_law.specs.Instrs.{meet};
ghost use Rattle.sync_index.specs.Touched.{Covers};
ghost use Rattle.sync_model.specs.Clients.{as_made, changeset_of};
ghost use Rattle.sync_rivals.specs.Lists.{StaysListed};
ghost use Rattle.sync_transform.specs.Sets.{made_by};
ghost use Rattle.list_places.specs.Moves.{action_in, first_cell, kind_in, kind_of, moved_changes, moved_first, IsShown};
ghost use Rattle.list_places.specs.declared.moves.ListAction.{ListAction as Action};
ghost use Rattle.list_lane.specs.Lanes.{Fits};
ghost use Rattle.list_lane.specs.Told.{told};
ghost use Rattle.sync_rebase.specs.Stretches.{told_unsent, IsSlotOf};
ghost use Rattle.list_lane.specs.Actions.{instrs_left, own_left, other_left};
ghost use Rattle.sync_rebase.specs.Settling.{left_of, Meets, Suits};
ghost use Rattle.sync_rebase.specs.Taking.{IsEntryOf};

use super::carried::Became;
use super::original::Original;
use list_lane::{Op, action_left, action_of, parts_of};
use list_places::{ListAction, Moves, both_move, is_later, same_first_cell};
use std::alloc::Global;
use std::marker::Model;
use sync_data::{Changeset, Entry, Ident, Instr, NoMemory, Stamp};
use sync_index::{Index, shared_spot};
use sync_transform::{Shifted, ones_stay, stays_apart};

/// A changeset that the server hasn't acknowledged, as it was made and as it was rebased since.
#[derive(Drop)]
pub struct Unsent {
    original: Original,
    spot: Option<u8>,
    current: Shifted,
}

impl Model for Unsent {
    ghost use Rattle.std.specs.Prelude.{◌≡◌};
    ghost use Rattle.sync_data.specs.declared.instr.Instr.{Instr};
    ghost use Rattle.sync_model.specs.Clients as clients;

    ghost Value = { clients.Unsent Instr };

    ghost view = { λ a. record { original = a.original; current = a.current.instrs } };

    ghost use Rattle.sync_index.specs.Spots.{LieAt};

    ghost invariant = { λ a. (a.current.ms ≡ a.original.ms) × LieAt a.spot a.current.instrs };
}

impl Unsent {
    /// A changeset as it was made, and as it was rebased since; both have one time. It takes no memory.
    pub fn new(number: u32, base: u32, original: Changeset, current: Changeset) -> Unsent
        requires numbered { 1 ≤ number }
        requires time { current.ms ≡ original.ms }
        ensures { result ≡ record { original = record { base = base; number = number; ms = original.ms; instrs = original.instrs }; current = current.instrs } }
    {
        Unsent {
            original: Original::new(number, base, original),
            spot: shared_spot(current.instrs()),
            current: Shifted::new(current),
        }
    }

    /// A changeset as it was made.
    pub fn made(number: u32, base: u32, changes: Changeset) -> Result<Unsent, NoMemory>
        requires { 1 ≤ number }
        ensures { IfOk result (λ unsent. unsent ≡ as_made (record { base = base; number = number; ms = changes.ms; instrs = changes.instrs })) }
    {
        match changes.copy() {
            Ok(current) => Ok(Unsent::new(number, base, changes, current)),
            Err(refusal) => Err(refusal),
        }
    }

    /// The changeset as it was made.
    pub(crate) fn original(&self) -> &Original
        ensures { result.now ≡ self.now.original }
    {
        &self.original
    }

    /// A copy of the changeset as it was rebased since.
    pub(crate) fn current(&self) -> Result<Changeset, NoMemory>
        ensures { IfOk result (λ changes. changes ≡ record { ms = self.now.original.ms; instrs = self.now.current }) }
    {
        self.current.copy()
    }

    /// A copy of the changeset with its one list instruction as a slot of a lane tells it, which acts on a list of that length.
    pub(crate) fn current_told(
        &self,
        alloc: Global,
        slot: Option<Op>,
        length: u32,
    ) -> Result<Changeset, NoMemory>
        requires fits { Fits length slot }
        requires kind { IfSome slot (λ a. kind_in self.now.current ≡ Some a.does) }
        ensures { IfOk result (λ changes. changes ≡ record { ms = self.now.original.ms; instrs = told length slot self.now.current }) }
    {
        match slot {
            Some(op) => self.current_at(action_of(op, length)),
            None => Ok(nothing(alloc, self.current.ms())),
        }
    }

    fn current_at(&self, action: ListAction) -> Result<Changeset, NoMemory>
        requires { kind_in self.now.current ≡ Some (kind_of action) }
        ensures { IfOk result (λ changes. changes ≡ record { ms = self.now.original.ms; instrs = moved_first action self.now.current }) }
    {
        match self.current.copy() {
            Ok(copy) => {
                let mut copy = Shifted::new(copy);
                copy.shift_to(action);
                Ok(copy.into_changes())
            }
            Err(refusal) => Err(refusal),
        }
    }

    /// The changeset but for where its one list instruction stands.
    #[inline(always)]
    pub(crate) fn written(&self) -> &Changeset
        ensures { IsShown result.now.instrs self.now.current }
    {
        self.current.written()
    }

    /// Its instructions as an index lists them, which asks nothing of where one of a list stands.
    pub(crate) fn listed(&self) -> &[Instr]
        ensures { StaysListed result.now self.now.current }
    {
        self.current.written().instrs()
    }

    /// What it does, where it is one list instruction.
    #[inline(always)]
    pub(crate) fn action(&self) -> Option<ListAction>
        ensures { result ≡ action_in self.now.current }
    {
        self.current.action()
    }

    /// What it is in the lane of a client with that ident, where it is one list instruction of the cell of a changeset, and acts on
    /// a list of that length, or where nothing of it is left.
    pub(crate) fn slot_in(&self, cell: &Changeset, own: Ident, length: u32) -> Option<Option<Op>>
        ensures { IfSome result (IsSlotOf self.now (first_cell cell.now.instrs) own length) }
    {
        if self.current.is_empty() {
            return Some(None);
        }
        match self.op_in(cell, own, length) {
            None => None,
            slot => Some(slot),
        }
    }

    fn op_in(&self, cell: &Changeset, own: Ident, length: u32) -> Option<Op>
        ensures { IfSome result (λ op. IsSlotOf self.now (first_cell cell.now.instrs) own length (Some op)) }
    {
        let action = self.current.action()?;
        let (does, place, prior) = parts_of(&action);
        if prior != length || !same_first_cell(cell, self.current.written()) {
            return None;
        }
        let stamp = Stamp {
            ms: self.current.ms(),
            ident: own,
        };
        Some(Op { does, place, stamp })
    }

    /// What it and a changeset of another do after they crossed, where each is one instruction of one list, and both stay.
    #[inline(always)]
    pub(crate) fn moves(&self, own: Ident, changes: &Shifted, origin: Ident) -> Option<Moves>
        ensures crosses { IfSome result (λ m. (n : ℕ) → cross_sets meet (changeset_of own self.now) (made_by origin n changes.now) ≡ Ok (changeset_of own (record self.now { current = moved_first m.left self.now.current }), made_by origin n (moved_changes m.right changes.now))) }
        ensures left { IfSome result (λ m. kind_in self.now.current ≡ Some (kind_of m.left)) }
        ensures right { IfSome result (λ m. kind_in changes.now.instrs ≡ Some (kind_of m.right)) }
    {
        let (action, other) = (self.current.action()?, changes.action()?);
        if !same_first_cell(self.current.written(), changes.written()) {
            return None;
        }
        let left_later = is_later(
            Stamp {
                ms: self.current.ms(),
                ident: own,
            },
            Stamp {
                ms: changes.ms(),
                ident: origin,
            },
        );
        both_move(action, other, left_later)
    }

    /// Whether an index tells that it meets nothing of what that is of, also where its one list instruction does the same
    /// elsewhere.
    #[inline(always)]
    pub(crate) fn stays_apart(&self, index: &Index) -> bool
        ensures own { IsTrue result → (others : List Instr) → Covers index.now others → (later : Bool) → crossed (λ a b. meet a b later) self.now.current others ≡ Ok (self.now.current, others) }
        ensures told { IsTrue result → (action : Action) → kind_in self.now.current ≡ Some (kind_of action) → (others : List Instr) → Covers index.now others → (later : Bool) → crossed (λ a b. meet a b later) (moved_first action self.now.current) others ≡ Ok (moved_first action self.now.current, others) }
    {
        stays_apart(self.spot, self.current.written(), index)
    }

    /// Whether it is plain that it and a changeset of another stay as they are, also where its one list instruction does the same
    /// elsewhere.
    pub(crate) fn stays(&self, changes: &Shifted) -> bool
        ensures own { IsTrue result → (later : Bool) → crossed (λ a b. meet a b later) self.now.current changes.now.instrs ≡ Ok (self.now.current, changes.now.instrs) }
        ensures told { IsTrue result → (action : Action) → kind_in self.now.current ≡ Some (kind_of action) → (later : Bool) → crossed (λ a b. meet a b later) (moved_first action self.now.current) changes.now.instrs ≡ Ok (moved_first action self.now.current, changes.now.instrs) }
    {
        ones_stay(self.current.written(), changes.written())
    }

    /// An equal one.
    pub fn copy(&self) -> Result<Unsent, NoMemory>
        ensures { IfOk result (λ copy. copy ≡ self.now) }
    {
        match self.current.copy() {
            Ok(current) => self.copy_as(current),
            Err(refusal) => Err(refusal),
        }
    }

    /// One that was made as it was, and was rebased to this since.
    pub(crate) fn copy_as(&self, current: Changeset) -> Result<Unsent, NoMemory>
        requires { current.ms ≡ self.now.original.ms }
        ensures { IfOk result (λ copy. copy ≡ record self.now { current = current.instrs }) }
    {
        let original = &self.original;
        match original.changes().copy() {
            Ok(changes) => Ok(Unsent::new(original.number(), original.base(), changes, current)),
            Err(refusal) => Err(refusal),
        }
    }

    /// Whether the entry is this changeset: its number, its time and its instructions. It takes no memory.
    pub(crate) fn is_of(&mut self, alloc: Global, entry: &Entry) -> bool
        ensures same { self.new ≡ self.old }
        ensures told { IsTrue result ↔ IsEntryOf entry.now self.old }
    {
        self.original.number() == entry.number && self.current.is(alloc, &entry.changes)
    }

    /// It stands as rebased once more.
    pub(crate) fn rebase(&mut self, current: Changeset)
        requires { current.ms ≡ self.old.original.ms }
        ensures { self.new ≡ record self.old { current = current.instrs } }
    {
        self.spot = shared_spot(current.instrs());
        self.current = Shifted::new(current);
    }

    /// It became another.
    pub(crate) fn stand_as(&mut self, became: Became)
        requires { Suits became self.old }
        ensures { self.new ≡ record self.old { current = left_of became self.old.current } }
    {
        match became {
            Became::Moved(action) => self.shift_to(action),
            Became::Changed(current) => self.rebase(current),
        }
    }

    /// Nothing of it is left. It takes no memory.
    fn fall(&mut self, alloc: Global)
        ensures { self.new ≡ record self.old { current = [] } }
    {
        let nothing = nothing(alloc, self.current.ms());
        self.spot = shared_spot(nothing.instrs());
        self.current = Shifted::new(nothing);
    }

    /// Its one list instruction does the same elsewhere. It takes no memory.
    #[inline(always)]
    pub(crate) fn shift_to(&mut self, action: ListAction)
        requires { kind_in self.old.current ≡ Some (kind_of action) }
        ensures { self.new ≡ record self.old { current = moved_first action self.old.current } }
    {
        self.current.shift_to(action);
    }

    /// Its one list instruction does so now, or is none any more.
    fn stand(&mut self, alloc: Global, left: Option<ListAction>)
        requires { IfSome left (λ a. kind_in self.old.current ≡ Some (kind_of a)) }
        ensures { self.new ≡ record self.old { current = instrs_left left self.old.current } }
    {
        match left {
            Some(action) => self.shift_to(action),
            None => self.fall(alloc),
        }
    }

    /// Its one list instruction stands as a slot of a lane tells it, which acts on a list of that length. It takes no memory.
    pub(crate) fn tell(&mut self, alloc: Global, slot: Option<Op>, length: u32)
        requires fits { Fits length slot }
        requires kind { IfSome slot (λ a. kind_in self.old.current ≡ Some a.does) }
        ensures { self.new ≡ told_unsent length slot self.old }
    {
        match slot {
            Some(op) => self.shift_to(action_of(op, length)),
            None => self.fall(alloc),
        }
    }

    /// Its one list instruction, if it has one, meets an action of another in that list: what is left of that. It takes no memory.
    pub(crate) fn meet(
        &mut self,
        alloc: Global,
        own: Ident,
        action: &ListAction,
        stamp: Stamp,
    ) -> Option<ListAction>
        requires { Meets self.old action.now }
        ensures own { self.new ≡ record self.old { current = own_left (later_stamp self.old.original.ms own stamp.ms stamp.ident) (action_in self.old.current) action.now self.old.current } }
        ensures other { result ≡ other_left (not (later_stamp self.old.original.ms own stamp.ms stamp.ident)) (action_in self.old.current) action.now }
    {
        let Some(mine) = self.current.action() else {
            return Some(*action);
        };
        let later = is_later(
            Stamp {
                ms: self.current.ms(),
                ident: own,
            },
            stamp,
        );
        let (stays, left) = (
            action_left(later, &mine, action),
            action_left(!later, action, &mine),
        );
        self.stand(alloc, stays);
        left
    }
}

/// No instruction, at that time. It takes no memory.
pub(crate) fn nothing(alloc: Global, ms: u64) -> Changeset
    ensures { result ≡ record { ms = ms; instrs = [] } }
{
    Changeset::checked(ms, Vec::new(alloc)).unwrap()
}
