ghost use Rattle.std.specs.Prelude.{◌≡◌, Bool};
ghost use Rattle.sync_base.specs.Rules.{meeting};
ghost use Rattle.sync_base.specs.Agreement.{TwoSided, Mirrored};
ghost use Rattle.sync_base.specs.Lemmas.Whole.{meeting_turned, instrs_two_sided};

use super::act::Act;
use super::answers::{Mismatch, Outcome};
use sync_data::Instr;

/// The rule for two kinds of instructions that meet.
pub trait Meets<A: Act, B: Act> {
    /// What is left of both, by the row of the rule table. It takes no memory.
    fn meet(left: A, right: B, left_later: bool) -> Result<Outcome, Mismatch>
        ensures { result ≡ meeting (A.instr left) (B.instr right) left_later };

    /// Swapped sides have the mirror image for an answer.
    ghost mirror: { (left : A) (right : B) → Mirrored (A.instr left) (B.instr right) } = { λ left right. meeting_turned (A.instr left) (B.instr right) };

    /// Both orders act and end in the merged state.
    ghost two_sided: { (left : A) (right : B) → TwoSided (A.instr left) (B.instr right) } = { λ left right. instrs_two_sided (A.instr left) (B.instr right) };
}

/// Both sides stay.
pub fn keep_both<A: Act, B: Act>(left: A, right: B) -> Result<Outcome, Mismatch>
    ensures { result ≡ Ok (record { left = Some (A.instr left); right = Some (B.instr right) }) }
{
    outcome(Some(left.wrap()), Some(right.wrap()))
}

/// The left side alone stays.
pub fn keep_left<A: Act>(left: A) -> Result<Outcome, Mismatch>
    ensures { result ≡ Ok (record { left = Some (A.instr left); right = None }) }
{
    outcome(Some(left.wrap()), None)
}

/// The right side alone stays.
pub fn keep_right<B: Act>(right: B) -> Result<Outcome, Mismatch>
    ensures { result ≡ Ok (record { left = None; right = Some (B.instr right) }) }
{
    outcome(None, Some(right.wrap()))
}

/// Neither side stays.
pub fn keep_neither() -> Result<Outcome, Mismatch>
    ensures { result ≡ Ok (record { left = None; right = None }) }
{
    outcome(None, None)
}

fn outcome(left: Option<Instr>, right: Option<Instr>) -> Result<Outcome, Mismatch>
    ensures { result ≡ Ok (record { left = left; right = right }) }
{
    Ok(Outcome { left, right })
}
