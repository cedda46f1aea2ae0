ghost use Rattle.std.specs.Prelude.{◌≡◌, ◌≢◌, ℕ, Bool, true, List, Option, IsTrue, Some, Ok, Err, IfOk, IfErr};
ghost use Rattle.std.specs.Option.{option_copied};
ghost use Rattle.sync_data.specs.Payload.{IsSmall};
ghost use Rattle.sync_data.specs.declared.instr.Instr.{Instr};
ghost use Rattle.sync_theory.specs.Lists.{Agreement, cross as crossed, run};
ghost use Rattle.sync_base.specs.States.{State, IsState};
ghost use Rattle.sync_base.specs.Checks.{act};
ghost use Rattle.sync_theory.specs.Changesets.{cross_sets as crossed_sets, later_stamp};
ghost use Rattle.sync_law.specs.Instrs.{meet};
ghost use Rattle.sync_index.specs.Touched.{Covers};
ghost use Rattle.sync_index.specs.Spots.{LieAt, Misses};
ghost use Rattle.sync_transform.specs.Indexes.{IsCovered};
ghost use Rattle.sync_transform.specs.Sets.{made_by};
ghost use Rattle.list_places.specs.Moves.{shown};
ghost use Rattle.list_places.specs.declared.moves.ListAction.{ListAction};

use super::crossing::{CrossMismatch, cross_all};
use list_places::is_later;
use sync_base::{Changeset, Ident, Instr, Stamp};
use sync_index::Index;

/// Two changesets of two idents that were made on one state, each as carried over the other by its instructions, the later
/// one being the one with the greater stamp. Each keeps its time. It takes no memory.
pub fn cross_sets(
    left: Changeset,
    left_ident: Ident,
    right: Changeset,
    right_ident: Ident,
) -> Result<(Changeset, Changeset), CrossMismatch>
    requires { left_ident ≢ right_ident }
    ensures ok { IfOk result (λ p. (m n : ℕ) → crossed_sets meet (made_by left_ident m left) (made_by right_ident n right) ≡ Ok (made_by left_ident m p.0, made_by right_ident n p.1)) }
    ensures stuck { IfErr result (λ e. (m n : ℕ) → crossed_sets meet (made_by left_ident m left) (made_by right_ident n right) ≡ Err (e.left_place, e.right_place, e.kind)) }
    ensures agree { (s after_left after_right : State) → IsState s → run act left.instrs s ≡ Some after_left → run act right.instrs s ≡ Some after_right → IfOk result (λ p. Agreement act p.0.instrs p.1.instrs after_left after_right) }
{
    cross_changes(left, left_ident, right, right_ident, None)
}

/// `cross_sets`, with an index of the right changeset. It takes no memory.
pub fn cross_sets_indexed(
    left: Changeset,
    left_ident: Ident,
    right: Changeset,
    right_ident: Ident,
    index: &Index,
) -> Result<(Changeset, Changeset), CrossMismatch>
    requires differ { left_ident ≢ right_ident }
    requires indexed { Covers index.now right.instrs }
    ensures ok { IfOk result (λ p. (m n : ℕ) → crossed_sets meet (made_by left_ident m left) (made_by right_ident n right) ≡ Ok (made_by left_ident m p.0, made_by right_ident n p.1)) }
    ensures stuck { IfErr result (λ e. (m n : ℕ) → crossed_sets meet (made_by left_ident m left) (made_by right_ident n right) ≡ Err (e.left_place, e.right_place, e.kind)) }
    ensures indexed { IfOk result (λ p. Covers index.now p.1.instrs) }
    ensures agree { (s after_left after_right : State) → IsState s → run act left.instrs s ≡ Some after_left → run act right.instrs s ≡ Some after_right → IfOk result (λ p. Agreement act p.0.instrs p.1.instrs after_left after_right) }
{
    cross_changes(left, left_ident, right, right_ident, Some(index))
}

fn cross_changes(
    left: Changeset,
    left_ident: Ident,
    right: Changeset,
    right_ident: Ident,
    index: Option<&Index>,
) -> Result<(Changeset, Changeset), CrossMismatch>
    requires { IsCovered (option_copied index) right.instrs }
    ensures ok { IfOk result (λ p. (m n : ℕ) → crossed_sets meet (made_by left_ident m left) (made_by right_ident n right) ≡ Ok (made_by left_ident m p.0, made_by right_ident n p.1)) }
    ensures stuck { IfErr result (λ e. (m n : ℕ) → crossed_sets meet (made_by left_ident m left) (made_by right_ident n right) ≡ Err (e.left_place, e.right_place, e.kind)) }
    ensures indexed { IfOk result (λ p. IsCovered (option_copied index.entry) p.1.instrs) }
{
    let (left_ms, right_ms) = (left.ms(), right.ms());
    let left_later = is_later(
        Stamp {
            ms: left_ms,
            ident: left_ident,
        },
        Stamp {
            ms: right_ms,
            ident: right_ident,
        },
    );
    let (lefts, rights) = (instrs_of(left), instrs_of(right));
    match cross_all(lefts, rights, index, left_later) {
        Err(stop) => Err(stop),
        Ok((lefts, rights)) => {
            let left = Changeset::checked(left_ms, lefts).unwrap();
            let right = Changeset::checked(right_ms, rights).unwrap();
            Ok((left, right))
        }
    }
}

fn instrs_of(changes: Changeset) -> Vec<Instr>
    ensures items { result.items ≡ changes.instrs }
    ensures small { IsSmall result.items }
{
    changes.into_instrs()
}

/// Whether the index tells that a changeset meets nothing of what it is of: the two cross each other as they are, on
/// whichever side they stand, also where its one list instruction is shifted. Where the spot at which all its objects lie is known and the index tells by that alone, the
/// changeset isn't looked at. It takes no memory.
#[inline(always)]
pub fn stays_apart(spot: Option<u8>, changes: &Changeset, index: &Index) -> bool
    requires { LieAt spot changes.now.instrs }
    ensures left { IsTrue result → (action : Option ListAction) (others : List Instr) → Covers index.now others → (later : Bool) → crossed (λ a b. meet a b later) (shown action changes.now.instrs) others ≡ Ok (shown action changes.now.instrs, others) }
    ensures right { IsTrue result → (action : Option ListAction) (others : List Instr) → Covers index.now others → (later : Bool) → crossed (λ a b. meet a b later) others (shown action changes.now.instrs) ≡ Ok (others, shown action changes.now.instrs) }
{
    index.passes_over(spot) || touches_nothing(changes, index)
}

fn touches_nothing(changes: &Changeset, index: &Index) -> bool
    ensures { result ≡ true → Misses index.now changes.now.instrs }
{
    for instr in changes.instrs() {
        if index.may_touch(instr) {
            return false;
        }
    }
    true
}
