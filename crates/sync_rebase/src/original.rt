ghost use Rattle.std.specs.Prelude.{◌≡◌, ◌≤◌};
ghost use Rattle.sync_data.specs.Payload.{IsSmall};

use std::marker::Model;
use sync_data::Changeset;

/// A changeset as a client made it: its number, at least 1, among the client's, and the version of the history on which it was
/// made.
#[derive(Drop)]
pub struct Original {
    number: u32,
    base: u32,
    changes: Changeset,
}

impl Model for Original {
    ghost use Rattle.std.specs.Prelude.{◌≤◌};
    ghost use Rattle.sync_data.specs.declared.instr.Instr.{Instr};
    ghost use Rattle.sync_model.specs.Clients as clients;

    ghost Value = { clients.Original Instr };

    ghost view = { λ a. record { base = a.base; number = a.number; ms = a.changes.ms; instrs = a.changes.instrs } };

    ghost invariant = { λ a. 1 ≤ a.number };
}

impl Original {
    pub(crate) fn new(number: u32, base: u32, changes: Changeset) -> Original
        requires { 1 ≤ number }
        ensures { result ≡ record { base = base; number = number; ms = changes.ms; instrs = changes.instrs } }
    {
        Original {
            number,
            base,
            changes,
        }
    }

    /// Its number among the client's changesets, at least 1.
    pub fn number(&self) -> u32
        ensures value { result ≡ self.now.number }
        ensures numbered { 1 ≤ result }
    {
        self.number
    }

    /// The version of the history on which it was made.
    pub fn base(&self) -> u32
        ensures { result ≡ self.now.base }
    {
        self.base
    }

    /// Its time and its instructions.
    pub fn changes(&self) -> &Changeset
        ensures changes { result.now ≡ record { ms = self.now.ms; instrs = self.now.instrs } }
        ensures small { IsSmall self.now.instrs }
    {
        let changes = &self.changes;
        let _ = changes.instrs();
        changes
    }
}
