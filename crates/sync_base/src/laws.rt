ghost use Rattle.std.specs.Prelude.{List, is_some, not, ◌≡◌, ◌↔◌, ◌==◌, Bool, true, Some, None};
ghost use Rattle.sync_data.specs.declared.instr.Instr.{Instr};
ghost use Rattle.sync_data.specs.declared.column.Column.{Column};
ghost use Rattle.sync_data.specs.declared.key.KeyKind.{KeyKind};
ghost use Rattle.sync_base.specs.Effects.{Effect, effect_of, instr_of, is_effect};
ghost use Rattle.sync_base.specs.States.{State, IsState, no_state, key_rank_of};
ghost use Rattle.sync_base.specs.After.{after};
ghost use Rattle.sync_base.specs.Checks.{act, act_all, break_of, break_at, unbroken, AllPlaced};
ghost use Rattle.sync_base.specs.Merged.{merge, same_column};
ghost use Rattle.sync_base.specs.Rules.{meeting};
ghost use Rattle.sync_base.specs.Agreement.{TwoSided, Mirrored, Differ, SizesFit};
ghost use Rattle.sync_base.specs.Objects.{ApartStay, ObjectsStay, PayloadsStay};
ghost use Rattle.sync_base.specs.Footprints.{Framed};

/// Two instructions that act on a state and meet without a mismatch end in the merged state, in either order.
pub fn both_orders_agree()
    ensures { (a b : Instr) → TwoSided a b }
{}

/// The rule table with its sides swapped is its mirror image.
pub fn table_is_mirrored()
    ensures { (a b : Instr) → Mirrored a b }
{}

/// Where both act on one state, `SizesDiffer` never comes.
pub fn sizes_fit()
    ensures { (a b : Instr) → SizesFit a b }
{}

/// `TablesDiffer` or `ColumnsDiffer` comes exactly where the merged state is undefined.
pub fn definitions_differ()
    ensures { (a b : Instr) (later : Bool) (s : State) → (merge a b later s ≡ None) ↔ Differ a b later }
{}

/// The empty state is one, and an instruction that acts keeps a state a state.
pub fn states_stay()
    ensures empty { IsState no_state }
    ensures kept { (i : Instr) (s t : State) → IsState s → act i s ≡ Some t → IsState t }
{}

/// An instruction reads its footprint alone, and changes nothing but what the footprint names as changed.
pub fn frames_hold()
    ensures { (i : Instr) → Framed i }
{}

/// Instructions and their effects are one to one.
pub fn effects_tell()
    ensures there { (i : Instr) → instr_of (effect_of i) ≡ i }
    ensures back { (d : Effect) → effect_of (instr_of d) ≡ d }
{}

/// The tests of the rule table tell equal key kinds and equal columns.
pub fn tests_tell()
    ensures keys { (k j : KeyKind) → ((key_rank_of k == key_rank_of j) ≡ true) ↔ (k ≡ j) }
    ensures columns { (x y : Column) → (same_column x y ≡ true) ↔ (x ≡ y) }
{}

/// An instruction whose place lies within its list acts exactly where it meets no break, and so does a list of them.
pub fn breaks_tell()
    ensures one { (i : Instr) (s : State) → is_effect (effect_of i) ≡ true → act i s ≡ unbroken (break_of s (effect_of i)) (after s (effect_of i)) }
    ensures all { (instrs : List Instr) (s : State) → AllPlaced instrs → is_some (act_all instrs s) ≡ not (is_some (break_at instrs s)) }
{}

/// Instructions about two objects stay as they are when they meet. What is left of an instruction is about its object, and
/// carries as many bytes.
pub fn objects_stay()
    ensures apart { (a b : Instr) → ApartStay a b }
    ensures about { (a b : Instr) → ObjectsStay a b }
    ensures payload { (a b : Instr) → PayloadsStay a b }
{}
