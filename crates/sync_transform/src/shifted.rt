ghost use Rattle.std.specs.Prelude.{◌≡◌, ◌↔◌, [], List, Bool, Some, Ok, IfOk, IsTrue};
ghost use Rattle.sync_data.specs.declared.instr.Instr.{Instr};
ghost use Rattle.sync_theory.specs.Lists.{cross as crossed};
ghost use Rattle.sync_law.specs.Instrs.{meet};
ghost use Rattle.sync_index.specs.Touched.{Covers};
ghost use Rattle.sync_index.specs.Spots.{LieAt};
ghost use Rattle.list_places.specs.Moves.{action_in, kind_in, kind_of, moved_changes, IsShown};

use super::sets::stays_apart;
use list_places::{ListAction, action_in, moved_to, shown, write};
use std::alloc::Global;
use std::marker::Model;
use sync_base::{Changeset, NoMemory};
use sync_data::equality_is_exact;
use sync_index::Index;

/// A changeset. Where it is one list instruction, what that does since it was shifted is kept beside it, and written once the
/// changeset is taken out.
#[derive(Drop)]
pub struct Shifted {
    written: Changeset,
    action: Option<ListAction>,
}

impl Model for Shifted {
    ghost use Rattle.std.specs.Prelude.{◌≡◌};
    ghost use Rattle.std.specs.Option.{option_map};
    ghost use Rattle.sync_data.specs.Payload.{Changes};
    ghost use Rattle.list_places.specs.Moves.{kind_in, kind_of, shown_changes};

    ghost Value = { Changes };

    ghost view = { λ a. shown_changes a.action a.written };

    ghost invariant = { λ a. kind_in a.written.instrs ≡ option_map kind_of a.action };
}

impl Shifted {
    /// A changeset as it is. It takes no memory.
    pub fn new(changes: Changeset) -> Shifted
        ensures { result ≡ changes }
    {
        let action = action_in(&changes);
        Shifted {
            written: changes,
            action,
        }
    }

    /// The time, in milliseconds since the epoch.
    #[inline(always)]
    pub fn ms(&self) -> u64
        ensures { result ≡ self.now.ms }
    {
        self.written.ms()
    }

    /// Whether it has no instruction.
    #[inline(always)]
    pub fn is_empty(&self) -> bool
        ensures { IsTrue result ↔ (self.now.instrs ≡ []) }
    {
        self.written.instrs().is_empty()
    }

    /// What it does, where it is one list instruction.
    #[inline(always)]
    pub fn action(&self) -> Option<ListAction>
        ensures { result ≡ action_in self.now.instrs }
    {
        self.action
    }

    /// The changeset but for where its one list instruction stands.
    #[inline(always)]
    pub fn written(&self) -> &Changeset
        ensures { IsShown result.now.instrs self.now.instrs }
    {
        &self.written
    }

    /// Its one list instruction does the same elsewhere. It takes no memory.
    #[inline(always)]
    pub fn shift_to(&mut self, action: ListAction)
        requires { kind_in self.old.instrs ≡ Some (kind_of action) }
        ensures { self.new ≡ moved_changes action self.old }
    {
        self.action = Some(action);
    }

    /// Whether it is just these changes. They are written where they are, without memory.
    pub fn is(&mut self, alloc: Global, changes: &Changeset) -> bool
        ensures same { self.new ≡ self.old }
        ensures told { IsTrue result ↔ (self.old ≡ changes.now) }
    {
        equality_is_exact();
        write(alloc, &mut self.written, self.action);
        self.written == *changes
    }

    /// Whether an index tells that it meets nothing of what that is of, as `stays_apart` has it.
    #[inline(always)]
    pub fn stays_apart(&self, spot: Option<u8>, index: &Index) -> bool
        requires { LieAt spot self.now.instrs }
        ensures left { IsTrue result → (others : List Instr) → Covers index.now others → (later : Bool) → crossed (λ a b. meet a b later) self.now.instrs others ≡ Ok (self.now.instrs, others) }
        ensures right { IsTrue result → (others : List Instr) → Covers index.now others → (later : Bool) → crossed (λ a b. meet a b later) others self.now.instrs ≡ Ok (others, self.now.instrs) }
    {
        stays_apart(spot, &self.written, index)
    }

    /// The changeset. It takes no memory.
    pub fn into_changes(self) -> Changeset
        ensures { result ≡ self }
    {
        let Shifted { written, action } = self;
        match action {
            Some(action) => moved_to(written, action),
            None => written,
        }
    }

    /// An equal changeset.
    pub fn copy(&self) -> Result<Changeset, NoMemory>
        ensures { IfOk result (λ copy. copy ≡ self.now) }
    {
        shown(&self.written, self.action)
    }
}
