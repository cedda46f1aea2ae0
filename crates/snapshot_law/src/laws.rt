ghost use Rattle.std.specs.Prelude.{Bool, List, [], Some, ◌≡◌};
ghost use Rattle.sync_theory.specs.Lists.{run};
ghost use Rattle.sync_data.specs.declared.instr.Instr.{Instr};
ghost use Rattle.sync_base.specs.Checks.{act};
ghost use Rattle.sync_base.specs.States.{State, IsState, no_state};
ghost use Rattle.snapshot_law.specs.Build.{build, built_list};

/// The state with no tables has no parts.
pub fn nothing_is_built_of_nothing()
    ensures { (small : List Instr → Bool) → build small no_state ≡ [] }
{}

/// The list of a state acts from the state with no tables, and ends in that state.
pub fn every_state_is_built()
    ensures { (s : State) → IsState s → run act (built_list s) no_state ≡ Some s }
{}
