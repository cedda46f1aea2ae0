ghost use Rattle.std.specs.Prelude.{◌≡◌, ◌≤◌, ◌&&◌, not, length, IfSome, IfOk, IfErr, IsErrOf, OnOk, OnErr, Some, None, true, false};
ghost use Rattle.sync_base.specs.Checks.{act_all};
ghost use Rattle.sync_data.specs.Payload.{IsSmall};
ghost use Rattle.sync_model.specs.Profile.{all_admitted, first_need, first_outside, needs};
ghost use Rattle.sync_exchange.specs.Profile.{the_profile};
ghost use Rattle.sync_client.specs.Refusals.{IsPlain};
ghost use Rattle.sync_client.specs.Seen.{Past};
ghost use Rattle.sync_client.specs.Transactions.{Commits, RefusesEdits};

use crate::refusal::ClientRefusal;
use crate::replica::Replica;
use std::alloc::Global;
use sync_codec::{encode, needs_second};
use sync_data::{Changeset, Instr};
use sync_rebase::Unsent;
use sync_store::AllRefusal;

/// A transaction that was made: its number among the client's, and the bytes of its instructions.
#[derive(Drop)]
pub(crate) struct Made {
    pub(crate) number: u32,
    pub(crate) body: Vec<u8>,
}

impl Replica {
    /// A transaction acts on the objects and goes to the end of the unsent list.
    pub(crate) fn make(
        &mut self,
        alloc: Global,
        ms: u64,
        edits: Vec<Instr>,
    ) -> Result<Made, ClientRefusal>
        ensures step { (past : Past) → length past.made ≡ self.old.count → Commits past self.old self.new ms edits.items result }
        ensures large { IsErrOf result ClientRefusal.TooLarge → IsSmall edits.items → ⊥ }
        ensures number { IfOk result (λ made. made.number ≤ 4294967295) }
        ensures plain { IfErr result IsPlain }
    {
        let Ok(changes) = Changeset::checked(ms, edits) else {
            return Err(ClientRefusal::TooLarge);
        };
        let Ok(body) = encode(alloc, &changes) else {
            return Err(ClientRefusal::NoMemory);
        };
        if self.count == u32::MAX {
            return Err(ClientRefusal::NumbersFull);
        }
        self.check_form(&changes)?;
        self.check_tables(&changes)?;
        self.act(&changes)?;
        let number = self.count + 1;
        let Ok(unsent) = Unsent::made(number, self.cursor, changes) else {
            return Err(ClientRefusal::NoMemory);
        };
        let Ok(()) = self.unsent.push(unsent) else {
            return Err(ClientRefusal::NoMemory);
        };
        self.count = number;
        Ok(Made { number, body })
    }

    /// In form 1 none of the instructions may need form 2.
    fn check_form(&self, changes: &Changeset) -> Result<(), ClientRefusal>
        ensures fine { OnOk result ((needs the_profile changes.now.instrs && not self.now.second) ≡ false) }
        ensures old { OnErr result ((needs the_profile changes.now.instrs && not self.now.second) ≡ true) }
        ensures place { IfErr result (λ why. why ≡ ClientRefusal.OldForm (first_need the_profile changes.now.instrs)) }
        ensures plain { IfErr result IsPlain }
    {
        if self.second {
            return Ok(());
        }
        match first_second(changes.instrs()) {
            Some(place) => Err(ClientRefusal::OldForm { place }),
            None => Ok(()),
        }
    }

    /// Each of the instructions is one that the client's tables admit.
    fn check_tables(&self, changes: &Changeset) -> Result<(), ClientRefusal>
        ensures fine { OnOk result (all_admitted the_profile self.now.subset changes.now.instrs ≡ true) }
        ensures outside { OnErr result (all_admitted the_profile self.now.subset changes.now.instrs ≡ false) }
        ensures place { IfErr result (λ why. why ≡ ClientRefusal.NotSubscribed (first_outside the_profile self.now.subset changes.now.instrs)) }
        ensures plain { IfErr result IsPlain }
    {
        match self.outside(changes) {
            Some(place) => Err(ClientRefusal::NotSubscribed { place }),
            None => Ok(()),
        }
    }

    /// The instructions act on the objects.
    pub(crate) fn act(&mut self, changes: &Changeset) -> Result<(), ClientRefusal>
        ensures acts { OnOk result (act_all changes.now.instrs self.old.objects ≡ Some self.new.objects) }
        ensures others { OnOk result (self.new ≡ record self.old { objects = self.new.objects }) }
        ensures refused { IfErr result (RefusesEdits self.old self.new changes.now.instrs) }
        ensures fits { IsErrOf result ClientRefusal.TooLarge → ⊥ }
        ensures plain { IfErr result IsPlain }
    {
        let _ = changes.instrs();
        match self.objects.apply_all(changes) {
            Ok(()) => Ok(()),
            Err(AllRefusal::Break { place, cause }) => Err(ClientRefusal::Break {
                place: place as u32,
                code: cause.code(),
            }),
            Err(AllRefusal::NoMemory) => Err(ClientRefusal::NoMemory),
        }
    }
}

/// The place of the first instruction that isn't in the first version.
fn first_second(instrs: &[Instr]) -> Option<u32>
    requires { length instrs.now ≤ 65536 }
    ensures some { IfSome result (λ _. needs the_profile instrs.now ≡ true) }
    ensures place { IfSome result (λ place. place ≡ first_need the_profile instrs.now) }
    ensures none { result ≡ None → needs the_profile instrs.now ≡ false }
{
    let mut place: u32 = 0;
    for instr in instrs {
        if needs_second(instr) {
            return Some(place);
        }
        place += 1;
    }
    None
}
