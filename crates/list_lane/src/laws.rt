ghost use Rattle.list_lane.specs.Laws.{StillTold};
ghost use Rattle.list_lane.specs.Parts.{CrossesBefore, CrossesBehind, PassesAmong, PassesOne};

/// A lane that was crossed tells the same changesets.
pub fn lanes_stay_told()
    ensures { StillTold }
{}

/// Elements that a lane neither erases nor updates part it.
pub fn elements_part_a_lane()
    ensures before { CrossesBefore }
    ensures behind { CrossesBehind }
    ensures among { PassesAmong }
    ensures itself { PassesOne }
{}
