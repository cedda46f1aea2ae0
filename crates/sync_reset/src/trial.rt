ghost use Rattle.std.specs.Prelude.{◌≡◌, ◌∷◌, ◌++◌, [], List, Some, true, suc, OnOk};
ghost use Rattle.sync_data.specs.declared.instr.Instr.{Instr};
ghost use Rattle.sync_base.specs.Checks.{act};
ghost use Rattle.sync_base.specs.Effects.{effect_of, is_effect};
ghost use Rattle.sync_reset.specs.Saved.{outcome};

use super::adapting::adapted;
use super::answer::Dropped;
use super::part::apply;
use std::alloc::Global;
use sync_base::{Instr, NoMemory};
use sync_store::Store;

/// Instructions are tried one after the other on a store.
#[derive(Drop)]
pub(crate) struct Trial {
    pub part: Store,
    pub kept: Vec<Instr>,
    pub dropped: Vec<Dropped>,
}

impl Trial {
    /// Nothing was tried on the store.
    pub fn new(alloc: Global, part: Store) -> Trial
        ensures store { result.part ≡ part }
        ensures none { (result.kept.items ≡ []) × (result.dropped.items ≡ []) }
    {
        Trial {
            part,
            kept: Vec::new(alloc),
            dropped: Vec::new(alloc),
        }
    }

    /// Tries the instruction at a place.
    pub fn try_one(&mut self, place: usize, instr: &Instr) -> Result<(), NoMemory>
        ensures { OnOk result ((rest : List Instr) → outcome self.new.part self.new.kept.items self.new.dropped.items (suc place) rest ≡ outcome self.old.part self.old.kept.items self.old.dropped.items place (instr.now ∷ rest)) }
    {
        let Ok(place) = u32::try_from(place) else {
            return Err(NoMemory);
        };
        let fitted = adapted(&self.part, instr)?;
        is_placed(&fitted);
        match self.part.check(&fitted) {
            Ok(()) => self.keep(fitted),
            Err(cause) => {
                drop(fitted);
                let code = cause.code();
                put(&mut self.dropped, Dropped { place, code })
            }
        }
    }

    /// Lets an instruction act, and keeps it.
    fn keep(&mut self, instr: Instr) -> Result<(), NoMemory>
        ensures acted { OnOk result (act instr self.old.part ≡ Some self.new.part) }
        ensures kept { OnOk result (self.new.kept.items ≡ self.old.kept.items ++ instr ∷ []) }
        ensures dropped { OnOk result (self.new.dropped.items ≡ self.old.dropped.items) }
    {
        match self.act(&instr) {
            Ok(()) => put(&mut self.kept, instr),
            Err(NoMemory) => {
                drop(instr);
                Err(NoMemory)
            }
        }
    }

    /// Lets a copy of an instruction act.
    fn act(&mut self, instr: &Instr) -> Result<(), NoMemory>
        ensures acted { OnOk result (act instr.now self.old.part ≡ Some self.new.part) }
        ensures kept { self.new.kept.items ≡ self.old.kept.items }
        ensures dropped { self.new.dropped.items ≡ self.old.dropped.items }
    {
        let acting = instr.copy()?;
        apply(&mut self.part, acting)
    }
}

/// Puts an item at the end of a list.
fn put<T: Drop>(list: &mut Vec<T>, item: T) -> Result<(), NoMemory>
    ensures { OnOk result (list.new.items ≡ list.old.items ++ item ∷ []) }
{
    match list.push(item) {
        Ok(()) => Ok(()),
        Err(_) => Err(NoMemory),
    }
}

/// The place of every instruction lies in the list of which it has the length.
fn is_placed(instr: &Instr) -> bool
    ensures { is_effect (effect_of instr.now) ≡ true }
{
    match instr {
        Instr::ListUpdate(i) => i.spot.place() < i.spot.prior(),
        Instr::ListInsert(i) => i.spot.place() <= i.spot.prior(),
        Instr::ListErase(i) => i.spot.place() < i.spot.prior(),
        _ => true,
    }
}
