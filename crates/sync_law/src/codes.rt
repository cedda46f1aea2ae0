ghost use Rattle.std.specs.Prelude.{◌≡◌, Bool, Some, IfErr};
ghost use Rattle.sync_theory.specs.Lists.{ok_state, Keeps, TwoSided};
ghost use Rattle.sync_data.specs.declared.instr.Instr.{Instr};
ghost use Rattle.sync_base.specs.States.{State, IsState};
ghost use Rattle.sync_base.specs.Checks.{act};
ghost use Rattle.sync_law.specs.Coded.{apply, meet_by_code, IsNamed};

/// With breaks and mismatches by their numbers the laws are the same, and where both act the mismatch is
/// `TablesDiffer`, `ColumnsDiffer` or `Range`.
pub fn codes_agree()
    ensures acts { (i : Instr) (s : State) → ok_state (apply i s) ≡ act i s }
    ensures keeps { Keeps IsState (λ i s. ok_state (apply i s)) }
    ensures two_sided { (left_later : Bool) → TwoSided IsState (λ i s. ok_state (apply i s)) (λ a b. meet_by_code a b left_later) }
    ensures kinds { (left_later : Bool) (a b : Instr) (s after_a after_b : State) → ok_state (apply a s) ≡ Some after_a → ok_state (apply b s) ≡ Some after_b → IfErr (meet_by_code a b left_later) IsNamed }
{}
