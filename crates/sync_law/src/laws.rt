ghost use Rattle.std.specs.Prelude.{◌≡◌, ℕ, Bool, true, List, Some};
ghost use Rattle.sync_theory.specs.Lists.{ListsTwoSided, TwoSided, run};
ghost use Rattle.sync_theory.specs.Changesets.{Changeset, act_set, cross_sets};
ghost use Rattle.sync_theory.specs.Merging.{CarriesNext, ClientConverges, ListsSettle, OneCrossing, ServerConverges, SetsAgree};
ghost use Rattle.sync_theory.specs.World.{Reached, World};
ghost use Rattle.sync_data.specs.declared.instr.Instr.{Instr};
ghost use Rattle.sync_base.specs.States.{State, IsState, no_state};
ghost use Rattle.sync_base.specs.Checks.{act, act_all};
ghost use Rattle.sync_law.specs.Instrs.{meet};

use super::instrs::Instrs;

/// Two instructions that act on a state and meet without a mismatch lead, in both orders, to one state.
pub fn instructions_agree()
    ensures { (left_later : Bool) → TwoSided IsState act (λ a b. meet a b left_later) }
{}

/// Two lists that both act on a state and cross lead, in both orders, to one state.
pub fn lists_agree()
    ensures { (left_later : Bool) → ListsTwoSided IsState act (λ a b. meet a b left_later) }
{
    sync_theory::lists_agree::<Instrs>()
}

/// Two lists have one result, in whatever order their parts cross, or one place where they are stuck.
pub fn crossings_are_one()
    ensures { (left_later : Bool) → OneCrossing (λ a b. meet a b left_later) }
{
    sync_theory::one_crossing::<Instrs>()
}

/// Two changesets that cross lead, in both orders, to one state, and keep their stamps.
pub fn changesets_agree()
    ensures { SetsAgree IsState act meet }
{
    sync_theory::changesets_agree::<Instrs>()
}

/// Whatever clients and a server do, in any order: the server's history is that of all that clients made, and each
/// client's objects are the state at its cursor with its unsent changesets.
pub fn worlds_converge()
    ensures server { (own : ℕ → Bool) (any : Changeset Instr) (w : World (Changeset Instr) State) → Reached own (act_set act) (cross_sets meet) any no_state w → ServerConverges IsState act no_state meet w }
    ensures clients { (own : ℕ → Bool) (any : Changeset Instr) (w : World (Changeset Instr) State) → Reached own (act_set act) (cross_sets meet) any no_state w → (c : ℕ) → own c ≡ true → ClientConverges IsState act no_state meet w c }
{
    sync_theory::worlds_converge::<Instrs>()
}

/// A server that keeps a reciprocal list for each ident keeps all of them right.
pub fn reciprocal_lists_settle()
    ensures { (own : ℕ → Bool) (any : Changeset Instr) (w : World (Changeset Instr) State) (c b : ℕ) (o x : Changeset Instr) (es : List (Changeset Instr)) → Reached own (act_set act) (cross_sets meet) any no_state w → CarriesNext IsState act no_state meet w c b o x es → ListsSettle IsState act no_state meet w c b o x es }
{
    sync_theory::reciprocal_lists_settle::<Instrs>()
}

/// A list of instructions acts as the theory runs it.
pub fn lists_act_alike()
    ensures { (instrs : List Instr) (s : State) → act_all instrs s ≡ run act instrs s }
{}
