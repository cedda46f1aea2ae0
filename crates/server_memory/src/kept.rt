ghost use Rattle.std.specs.Prelude.{◌≡◌, ◌≤◌, ◌&&◌, not, Some, length, IfOk, OnOk};
ghost use Rattle.sync_data.specs.declared.instr.Instr.{Instr};
ghost use Rattle.sync_exchange.specs.Profile.{the_profile, unspell};
ghost use Rattle.sync_model.specs.Parts.{Given as GivenParts, at_ident, is_newer, merge_by};
ghost use Rattle.server_memory.specs.Merging.{IsFresh, Merges, Prepares, change_of};

use crate::history::History;
use crate::merging::{ChangeHead, Prepared, admit, apply, read};
use crate::refusal::ChangeRefusal;
use std::alloc::Global;
use sync_base::{Ident, NoMemory};
use sync_codec::any_needs_second;
use sync_store::Store;

/// What a server keeps in memory: the history, the objects, and the state at the floor of the history.
#[derive(Drop)]
pub struct Kept {
    pub history: History,
    pub objects: Store,
    pub below: Store,
}

impl Kept {
    ghost use Rattle.server_memory.specs.Kept.{parts};
    ghost use Rattle.sync_model.specs.Parts.{no_parts};

    /// What is kept of no records.
    pub(crate) fn new(alloc: Global) -> Result<Kept, NoMemory>
        ensures { IfOk result (λ made. parts made ≡ no_parts the_profile) }
    {
        Ok(Kept {
            history: History::new(alloc),
            objects: Store::new(alloc)?,
            below: Store::new(alloc)?,
        })
    }

    /// The next change of an ident, ready to act. What is kept stays as it is.
    fn prepare(
        &mut self,
        alloc: Global,
        ident: Ident,
        head: ChangeHead,
        body: &[u8],
    ) -> Result<Prepared, ChangeRefusal>
        requires fresh { IsFresh ident (change_of head body.now) self.old.history.idents }
        requires small { length body.now ≤ 67108864 }
        ensures same { self.new ≡ self.old }
        ensures second { IfOk result (λ p. p.second ≡ is_newer the_profile (unspell body.now)) }
        ensures prepared { (g : GivenParts Instr) → at_ident ident self.old.history.idents ≡ Some g → Prepares result (parts self.old) ident g (change_of head body.now) (merge_by the_profile (parts self.old) ident g (change_of head body.now)) }
    {
        let Some(given) = self.history.at(ident) else {
            unreachable!()
        };
        match admit(given, self.history.len(), self.history.floor(), head) {
            Ok(()) => {}
            Err(why) => return Err(ChangeRefusal::Refused(why)),
        }
        let changes = read(alloc, head, body)?;
        let second = any_needs_second(changes.instrs());
        let carried = self.history.carry(alloc, ident, head.base, changes)?;
        Ok(Prepared { carried, second })
    }

    /// Merges the next change of an ident, and answers whether a Form stands before its Entry in the journal. Its bytes may
    /// be longer than those of any Upload.
    pub fn merge(
        &mut self,
        alloc: Global,
        ident: Ident,
        head: ChangeHead,
        body: &[u8],
    ) -> Result<bool, ChangeRefusal>
        requires fresh { IsFresh ident (change_of head body.now) self.old.history.idents }
        requires small { length body.now ≤ 67108864 }
        ensures given { OnOk result (length self.new.history.idents ≡ length self.old.history.idents) }
        ensures form { IfOk result (λ form. form ≡ (is_newer the_profile (unspell body.now) && not self.old.history.second)) }
        ensures merged { (g : GivenParts Instr) → at_ident ident self.old.history.idents ≡ Some g → Merges result (merge_by the_profile (parts self.old) ident g (change_of head body.now)) ident (change_of head body.now) (parts self.old) (parts self.new) }
    {
        let Prepared { carried, second } = match self.prepare(alloc, ident, head, body) {
            Ok(prepared) => prepared,
            Err(refusal) => return Err(refusal),
        };
        match apply(&mut self.objects, carried.changes()) {
            Ok(()) => {}
            Err(refusal) => return Err(refusal),
        }
        let form = second & !self.history.second();
        match self
            .history
            .integrate(alloc, ident, head.number, head.base, second, carried)
        {
            Ok(()) => Ok(form),
            Err(NoMemory) => Err(ChangeRefusal::NoMemory),
        }
    }
}
