ghost use Rattle.std.specs.Prelude.{◌≡◌, ◌≤◌, length, IfSome, None, Some, true, false};
ghost use Rattle.sync_model.specs.Clients as model;
ghost use Rattle.sync_model.specs.Profile.{all_admitted, first_outside};
ghost use Rattle.sync_exchange.specs.Profile.{the_profile};
ghost use Rattle.sync_client.specs.Seen.{Past, seen};

use crate::replica::Replica;
use sync_data::{Changeset, Instr};
use sync_subset::Subset;

impl Replica {
    /// Whether it has an ident, began with a state, or made or took a changeset.
    pub(crate) fn is_late(&self) -> bool
        ensures { (past : Past) → length past.made ≡ self.now.count → result ≡ model.is_late (seen past self.now) }
    {
        self.ident != 0 || self.floor.is_some() || self.count != 0 || self.cursor != 0
    }

    /// The place of the first instruction that the client's tables don't admit.
    pub(crate) fn outside(&self, changes: &Changeset) -> Option<u32>
        ensures some { IfSome result (λ _. all_admitted the_profile self.now.subset changes.now.instrs ≡ false) }
        ensures place { IfSome result (λ place. place ≡ first_outside the_profile self.now.subset changes.now.instrs) }
        ensures none { result ≡ None → all_admitted the_profile self.now.subset changes.now.instrs ≡ true }
    {
        match &self.subset {
            Some(tables) => outside_of(tables, changes.instrs()),
            None => None,
        }
    }
}

/// The place of the first instruction that these tables don't admit.
fn outside_of(tables: &Subset, instrs: &[Instr]) -> Option<u32>
    requires { length instrs.now ≤ 65536 }
    ensures some { IfSome result (λ _. all_admitted the_profile (Some tables.now) instrs.now ≡ false) }
    ensures place { IfSome result (λ place. place ≡ first_outside the_profile (Some tables.now) instrs.now) }
    ensures none { result ≡ None → all_admitted the_profile (Some tables.now) instrs.now ≡ true }
{
    let mut place: u32 = 0;
    for instr in instrs {
        if !tables.admits(instr) {
            return Some(place);
        }
        place += 1;
    }
    None
}
