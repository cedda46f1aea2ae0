ghost use Rattle.sync_data.specs.declared.instr.Instr.{Instr};
ghost use Rattle.sync_rivals.specs.Strangers.{HomesStay, StrangersStay};

/// What is listed under no place of the rivals of an instruction is apart from it: both stay as they are, on whichever
/// side they stand and whichever is later. What is left of an instruction has its home.
pub fn strangers_stay()
    ensures apart { (a b : Instr) → StrangersStay a b }
    ensures home { (a b : Instr) → HomesStay a b }
{}
