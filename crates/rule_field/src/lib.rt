//! What is left where a cell of one value is updated or added to.
#![tactic(auto)]

ghost use Rattle.std.specs.Prelude.{◌≡◌};
ghost use Rattle.sync_base.specs.After.{added};
ghost use Rattle.sync_base.specs.Rules.{is_summed};

use sync_base::{
    AddInteger, EraseObject, Meets, Mismatch, Outcome, Update, Value, erases, is_erased, keep_both,
    keep_left, keep_right, later_wins, left_wins, right_wins, same_cell,
};

/// The rules of Update and AddInteger, also where they meet a table, a column or an object.
pub struct FieldRules;

impl Meets<EraseObject, Update> for FieldRules {
    fn meet(left: EraseObject, right: Update, _: bool) -> Result<Outcome, Mismatch> {
        left_wins(erases(&left, &right.cell), left, right)
    }
}

impl Meets<EraseObject, AddInteger> for FieldRules {
    fn meet(left: EraseObject, right: AddInteger, _: bool) -> Result<Outcome, Mismatch> {
        left_wins(erases(&left, &right.cell), left, right)
    }
}

impl Meets<Update, EraseObject> for FieldRules {
    fn meet(left: Update, right: EraseObject, _: bool) -> Result<Outcome, Mismatch> {
        right_wins(is_erased(&left.cell, &right), left, right)
    }
}

impl Meets<AddInteger, EraseObject> for FieldRules {
    fn meet(left: AddInteger, right: EraseObject, _: bool) -> Result<Outcome, Mismatch> {
        right_wins(is_erased(&left.cell, &right), left, right)
    }
}

impl Meets<Update, Update> for FieldRules {
    fn meet(left: Update, right: Update, left_later: bool) -> Result<Outcome, Mismatch> {
        let clash = same_cell(&left.cell, &right.cell);
        later_wins(clash, left_later, left, right)
    }
}

impl Meets<Update, AddInteger> for FieldRules {
    fn meet(left: Update, right: AddInteger, left_later: bool) -> Result<Outcome, Mismatch> {
        if !(same_cell(&left.cell, &right.cell) & takes_additions(&left.value)) {
            keep_both(left, right)
        } else if left_later {
            keep_left(left)
        } else {
            keep_both(increased(left, right.amount), right)
        }
    }
}

impl Meets<AddInteger, Update> for FieldRules {
    fn meet(left: AddInteger, right: Update, left_later: bool) -> Result<Outcome, Mismatch> {
        if !(same_cell(&left.cell, &right.cell) & takes_additions(&right.value)) {
            keep_both(left, right)
        } else if left_later {
            let right = increased(right, left.amount);
            keep_both(left, right)
        } else {
            keep_right(right)
        }
    }
}

/// Whether an addition changes the value or leaves it null.
fn takes_additions(value: &Value) -> bool
    ensures { result ≡ is_summed value.now }
{
    matches!(value, Value::Null | Value::Int(_))
}

/// The update to the sum, modulo 2^64.
#[tactic(auto, using(std::proofs::lemmas::Int::wrapping_add_is))]
fn increased(update: Update, amount: i64) -> Update
    ensures { result ≡ record { cell = update.cell; value = added amount update.value } }
{
    let mut update = update;
    if let Value::Int(n) = update.value {
        update.value = Value::Int(n.wrapping_add(amount));
    }
    update
}
