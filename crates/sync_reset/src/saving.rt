ghost use Rattle.std.specs.Prelude.{◌≡◌, IfOk};
ghost use Rattle.sync_model.specs.Resets.{saved};
ghost use Rattle.sync_exchange.specs.Profile.{the_profile};
ghost use Rattle.sync_reset.specs.Saved.{drops};

use super::answer::Saved;
use super::part::part_of;
use super::trial::Trial;
use std::alloc::Global;
use sync_base::{Changeset, Instr, Listed, NoMemory};
use sync_store::Store;

/// What can be saved of a change on other objects: its instructions are tried in order, an insertion into a list first
/// made to fit the list that is there. One that meets a break is dropped, with its place and the code of its break; any
/// other is kept, as it was made to fit. The objects stay as they are.
///
/// The instructions act on a store of the same tables that holds the objects alone which the change names, so the cost
/// grows with the tables, the change and those objects.
pub fn saved(alloc: Global, objects: &Store, changes: &Changeset) -> Result<Saved, NoMemory>
    ensures kept { IfOk result (λ s. s.kept ≡ (saved the_profile objects.now changes.now.instrs).kept) }
    ensures dropped { IfOk result (λ s. drops s.dropped ≡ (saved the_profile objects.now changes.now.instrs).dropped) }
{
    let part = part_of(alloc, objects, changes)?;
    let trial = try_all(alloc, part, changes.instrs())?;
    Ok(Saved {
        kept: Listed::of(trial.kept),
        dropped: Listed::of(trial.dropped),
    })
}

/// Tries instructions in order.
fn try_all(alloc: Global, part: Store, instrs: &[Instr]) -> Result<Trial, NoMemory>
    ensures { IfOk result (λ t. (t.kept.items ≡ (saved the_profile part instrs.now).kept) × (drops t.dropped.items ≡ (saved the_profile part instrs.now).dropped)) }
{
    let mut trial = Trial::new(alloc, part);
    for (place, instr) in instrs.iter().enumerate() {
        trial.try_one(place, instr)?;
    }
    Ok(trial)
}
