ghost use Rattle.std.specs.Prelude.{◌≡◌, ◌≢◌, ℕ, Some, Ok, Err, IfOk, IfErr};
ghost use Rattle.sync_theory.specs.Lists.{cross, run, Agreement};
ghost use Rattle.sync_theory.specs.Changesets.{cross_sets as crossed_sets, later_stamp};
ghost use Rattle.sync_base.specs.States.{State, IsState};
ghost use Rattle.sync_base.specs.Checks.{act};
ghost use Rattle.sync_law.specs.Instrs.{meet};
ghost use Rattle.sync_index.specs.Touched.{Touched, Covers};
ghost use Rattle.sync_transform.specs.Sets.{made_by};
ghost use Rattle.list_blocks.specs.Blocks.{acted};

use super::plan::{Plan, planned};
use super::write::written;
use std::alloc::Global;
use sync_base::{Changeset, Ident};
use sync_index::Index;
use sync_transform::{CrossMismatch, cross_sets, cross_sets_indexed};

/// `cross_sets`, which is quicker where both changesets are long blocks of list instructions of one cell. That takes memory; where
/// there is none, it is as slow.
pub fn cross_blocks(
    alloc: Global,
    left: Changeset,
    left_ident: Ident,
    right: Changeset,
    right_ident: Ident,
) -> Result<(Changeset, Changeset), CrossMismatch>
    requires { left_ident ≢ right_ident }
    ensures ok { IfOk result (λ p. (m n : ℕ) → crossed_sets meet (made_by left_ident m left) (made_by right_ident n right) ≡ Ok (made_by left_ident m p.0, made_by right_ident n p.1)) }
    ensures stuck { IfErr result (λ e. (m n : ℕ) → crossed_sets meet (made_by left_ident m left) (made_by right_ident n right) ≡ Err (e.left_place, e.right_place, e.kind)) }
    ensures agree { (s after_left after_right : State) → IsState s → run act left.instrs s ≡ Some after_left → run act right.instrs s ≡ Some after_right → IfOk result (λ p. Agreement act p.0.instrs p.1.instrs after_left after_right) }
{
    match planned(alloc, &left, left_ident, &right, right_ident) {
        Some(plan) => Ok(carry_out(plan, left, left_ident, right, right_ident)),
        None => cross_sets(left, left_ident, right, right_ident),
    }
}

/// `cross_blocks`, with an index of the right changeset.
pub fn cross_blocks_indexed(
    alloc: Global,
    left: Changeset,
    left_ident: Ident,
    right: Changeset,
    right_ident: Ident,
    index: &Index,
) -> Result<(Changeset, Changeset), CrossMismatch>
    requires differ { left_ident ≢ right_ident }
    requires indexed { Covers index.now right.instrs }
    ensures ok { IfOk result (λ p. (m n : ℕ) → crossed_sets meet (made_by left_ident m left) (made_by right_ident n right) ≡ Ok (made_by left_ident m p.0, made_by right_ident n p.1)) }
    ensures stuck { IfErr result (λ e. (m n : ℕ) → crossed_sets meet (made_by left_ident m left) (made_by right_ident n right) ≡ Err (e.left_place, e.right_place, e.kind)) }
    ensures indexed { IfOk result (λ p. Covers index.now p.1.instrs) }
    ensures agree { (s after_left after_right : State) → IsState s → run act left.instrs s ≡ Some after_left → run act right.instrs s ≡ Some after_right → IfOk result (λ p. Agreement act p.0.instrs p.1.instrs after_left after_right) }
{
    match planned(alloc, &left, left_ident, &right, right_ident) {
        Some(plan) => Ok(carry_out(plan, left, left_ident, right, right_ident)),
        None => cross_sets_indexed(left, left_ident, right, right_ident, index),
    }
}

/// Two changesets as they crossed by that plan.
fn carry_out(
    plan: Plan,
    left: Changeset,
    left_ident: Ident,
    right: Changeset,
    right_ident: Ident,
) -> (Changeset, Changeset)
    requires { cross (λ a b. meet a b (later_stamp left.ms left_ident right.ms right_ident)) left.instrs right.instrs ≡ Ok (acted plan.lefts.items left.instrs, acted plan.rights.items right.instrs) }
    ensures ok { (m n : ℕ) → crossed_sets meet (made_by left_ident m left) (made_by right_ident n right) ≡ Ok (made_by left_ident m result.0, made_by right_ident n result.1) }
    ensures indexed { (t : Touched) → Covers t right.instrs → Covers t result.1.instrs }
{
    let left = written(left, &plan.lefts);
    let right = written(right, &plan.rights);
    (left, right)
}
