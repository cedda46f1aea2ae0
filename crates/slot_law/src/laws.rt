// Slots of any instructions.
ghost use Rattle.slot_law.specs.Laws.{Carries, Ends, GivesUpLeft, GivesUpRight, Parts, Picks, Rebases, Skips};
ghost use Rattle.slot_law.specs.Slots.{on_left, on_right};
ghost use Rattle.sync_theory.specs.Changesets.{Changeset};

use sync_theory::Merge;

/// Instructions that go one after another through the slots of pending changesets are rebased over these, as a client does
/// it, and carried over them, as a server does it. Where one of them mismatches, so do the changesets.
pub fn slots_cross_as_changesets<M: Merge>()
    ensures left { Rebases M.meet }
    ensures right { Carries M.meet }
    ensures stuck_left { GivesUpLeft M.meet }
    ensures stuck_right { GivesUpRight M.meet }
{}

/// An instruction that passes all slots but some crosses these alone, and those are put back. Slots in two parts are
/// crossed one part after the other; what an index passes over stays; and where nothing is left of it, all stay.
pub fn some_slots_suffice<M: Merge>()
    ensures picks_left { (e : Changeset M.Instr) → Picks (on_left M.meet e) }
    ensures picks_right { (e : Changeset M.Instr) → Picks (on_right M.meet e) }
    ensures parts_left { (e : Changeset M.Instr) → Parts (on_left M.meet e) }
    ensures parts_right { (e : Changeset M.Instr) → Parts (on_right M.meet e) }
    ensures skips { Skips M.meet }
    ensures ends_left { (e : Changeset M.Instr) → Ends (on_left M.meet e) }
    ensures ends_right { (e : Changeset M.Instr) → Ends (on_right M.meet e) }
{}
