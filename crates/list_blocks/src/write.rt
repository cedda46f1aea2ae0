ghost use Rattle.std.specs.Prelude.{◌≡◌, ◌+◌, ◌<◌, ◌≤◌, ◌∷◌, ◌++◌, [], length, take, drop};
ghost use Rattle.sync_data.specs.declared.instr.Instr.{Instr};
ghost use Rattle.list_places.specs.Moves.{moved};
ghost use Rattle.list_blocks.specs.Blocks.{acted};

use list_places::{ListAction, put_action};
use sync_base::{Changeset, Instr};

/// A changeset of list instructions as each does what is told beside it, without those that fell. It takes no memory.
pub(crate) fn written(changes: Changeset, actions: &[Option<ListAction>]) -> Changeset
    ensures { result ≡ record { ms = changes.ms; instrs = acted actions.now changes.instrs } }
{
    let ms = changes.ms();
    let mut instrs = changes.into_instrs();
    let count = write_all(&mut instrs, actions);
    instrs.truncate(count);
    Changeset::checked(ms, instrs).unwrap()
}

/// The same of a list, at its front; the answer is how many are left.
fn write_all(instrs: &mut [Instr], actions: &[Option<ListAction>]) -> usize
    ensures { take result instrs.new ≡ acted actions.now instrs.old }
{
    let mut count = 0;
    let mut read = 0;
    while read < instrs.len() && read < actions.len() {
        if let Some(action) = actions[read] {
            write_at(instrs, count, read, action);
            count += 1;
        }
        read += 1;
    }
    count
}

/// The instruction at a place comes to the first free place, and does that.
fn write_at(instrs: &mut [Instr], free: usize, place: usize, action: ListAction)
    requires order { free ≤ place }
    requires within { place < length instrs.old }
    ensures front { (i : Instr) → drop place instrs.old ≡ i ∷ drop (place + 1) instrs.old → take (free + 1) instrs.new ≡ take free instrs.old ++ moved action i ∷ [] }
    ensures rest { drop (place + 1) instrs.new ≡ drop (place + 1) instrs.old }
{
    instrs.swap(free, place);
    put_action(&mut instrs[free], action);
}
