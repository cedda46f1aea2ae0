ghost use Rattle.std.specs.Prelude.{◌≡◌, ◌<◌, OnOk, length};
ghost use Rattle.sync_theory.specs.Lists.{kept};
ghost use Rattle.sync_rivals.specs.Lists.{Lists};
ghost use Rattle.sync_rivals.specs.Marks.{Knows};
ghost use Rattle.long_sets.specs.Rows.{lists_in, Crosses, MeetsAt};

use super::meeting::meet_in_place;
use sync_base::{Instr, Mismatch};
use sync_rivals::{Pace, RivalIndex};

/// A left instruction crosses the slots of a right changeset, which stand as crossed, and so does it. The index of the slots
/// follows; `written` has them as they came.
pub(crate) fn cross_slots(
    left: &mut Option<Instr>,
    slots: &mut [Option<Instr>],
    index: &mut RivalIndex,
    written: &[Instr],
    codes: &[u64],
    left_later: bool,
) -> Result<(), Mismatch>
    requires sizes { length written.now ≡ length slots.old }
    requires listed { Lists index.old (lists_in slots.old) }
    requires known { Knows codes.now (kept left.old) }
    ensures crosses { OnOk result (Crosses left_later slots.old left.old slots.new left.new) }
    ensures listed { OnOk result (Lists index.new (lists_in slots.new)) }
{
    let mut pace = Pace::new();
    let mut place = 0;
    let end = slots.len();
    while place < end {
        place = index.next(&mut pace, codes, left.is_none(), place, end);
        if place >= end {
            return Ok(());
        }
        meet_at(left, slots, index, written, place, left_later)?;
        place += 1;
    }
    Ok(())
}

/// It meets the slot at a place.
fn meet_at(
    left: &mut Option<Instr>,
    slots: &mut [Option<Instr>],
    index: &mut RivalIndex,
    written: &[Instr],
    place: usize,
    left_later: bool,
) -> Result<(), Mismatch>
    requires sizes { length written.now ≡ length slots.old }
    requires within { place < length slots.old }
    requires listed { Lists index.old (lists_in slots.old) }
    ensures met { OnOk result (MeetsAt left_later place left.old slots.old left.new slots.new) }
    ensures listed { OnOk result (Lists index.new (lists_in slots.new)) }
{
    let slot = &mut slots[place];
    meet_in_place(left, slot, left_later)?;
    let fell = slot.is_none();
    if fell {
        index.change(place, &written[place..place + 1], &[]);
    }
    Ok(())
}
