ghost use Rattle.std.specs.Prelude.{◌≡◌, ◌≤◌, OnOk};
ghost use Rattle.sync_data.specs.Payload.{payload_all};
ghost use Rattle.sync_base.specs.States.{IsState};
ghost use Rattle.sync_store.specs.Applying.{AppliesAll};
ghost use Rattle.sync_store.specs.Backs.{all_back, IsTakenBack};
ghost use Rattle.sync_store.specs.Small.{IsSmallState, most_bytes};

use super::parts::Parts;
use super::refusals::{AllRefusal, ApplyRefusal};
use super::undo::{Undo, keep, let_go};
use sync_base::{Instr, NoMemory};

impl Parts {
    /// Applies instructions one after the other, or none of them. What takes an instruction back is
    /// kept for all but the last, since none after it can break.
    pub(crate) fn put_all(&mut self, instrs: &[Instr]) -> Result<(), AllRefusal>
        requires { IsState self.old }
        ensures applied { AppliesAll result instrs.now self.old self.new }
        ensures small { OnOk result (payload_all instrs.now ≤ most_bytes → IsSmallState self.old → IsSmallState self.new) }
    {
        let Some((last, others)) = instrs.split_last() else {
            return Ok(());
        };
        let mut undos = Vec::new(self.alloc);
        for (place, instr) in others.iter().enumerate() {
            let undo = match self.apply(instr) {
                Ok(undo) => undo,
                Err(refusal) => return self.refuse(place as u64, refusal, undos),
            };
            if keep(&mut undos, undo).is_err() {
                return Err(AllRefusal::NoMemory);
            }
        }
        match self.apply(last) {
            Ok(undo) => {
                let_go(undo);
                Ok(())
            }
            Err(refusal) => self.refuse(others.len() as u64, refusal, undos),
        }
    }

    /// Takes instructions back, and tells the break of the one at `place`.
    fn refuse(
        &mut self,
        place: u64,
        refusal: ApplyRefusal,
        undos: Vec<Undo>,
    ) -> Result<(), AllRefusal>
        ensures { IsTakenBack result place refusal (all_back undos.entry.items self.old) self.new }
    {
        let ApplyRefusal::Break(cause) = refusal else {
            return Err(AllRefusal::NoMemory);
        };
        match self.take_all_back(undos) {
            Ok(()) => Err(AllRefusal::Break { place, cause }),
            Err(NoMemory) => Err(AllRefusal::NoMemory),
        }
    }

    /// Takes instructions back, the last first.
    fn take_all_back(&mut self, undos: Vec<Undo>) -> Result<(), NoMemory>
        ensures { OnOk result (self.new ≡ all_back undos.entry.items self.old) }
    {
        let mut undos = undos;
        while let Some(undo) = undos.pop() {
            self.take_back(undo)?;
        }
        Ok(())
    }
}
