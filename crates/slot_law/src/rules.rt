// Slots of the rule table's instructions.
ghost use Rattle.slot_law.specs.Lanes.{Goes, StillOwned, StopsAt, Sweeps};
ghost use Rattle.slot_law.specs.Slots.{on_left, on_right};
ghost use Rattle.slot_law.specs.Steps.{RivalsPass, Steps, StepsOn, StepsTo};
ghost use Rattle.std.specs.Prelude.{false, true};
ghost use Rattle.sync_law.specs.Instrs.{meet};

/// A list instruction goes through the slots of its lane as it crosses the lane, and the slots keep their owners.
pub fn lanes_cross_their_slots()
    ensures left { Goes true (on_left meet) }
    ensures right { Goes false (on_right meet) }
    ensures owned { StillOwned }
{}

/// What finds no rival among slots passes them, and so does what is left of it elsewhere.
pub fn strangers_pass_slots()
    ensures left { RivalsPass (on_left meet) }
    ensures right { RivalsPass (on_right meet) }
{}

/// The erasure of an object and a Clear drop each list instruction of the cell: an incoming one at a pending barrier, and
/// all of a lane at an incoming one.
pub fn barriers_drop_lanes()
    ensures stops_left { StopsAt (on_left meet) }
    ensures stops_right { StopsAt (on_right meet) }
    ensures sweeps_left { Sweeps (on_left meet) }
    ensures sweeps_right { Sweeps (on_right meet) }
{}

/// A list instruction goes through all slots by its lane alone; up to the first barrier of its cell; and in general by its
/// lane and its rivals behind that.
pub fn lanes_suffice()
    ensures left { Steps true (on_left meet) }
    ensures right { Steps false (on_right meet) }
    ensures to_left { StepsTo true (on_left meet) }
    ensures to_right { StepsTo false (on_right meet) }
    ensures behind_left { StepsOn true (on_left meet) }
    ensures behind_right { StepsOn false (on_right meet) }
{}
