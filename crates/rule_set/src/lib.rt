//! What is left where a value is made a member of a set, or no member.
#![tactic(auto)]

use sync_base::{
    EraseObject, Meets, Mismatch, Outcome, SetErase, SetInsert, erases, is_erased, left_wins,
    right_wins, same_cell, same_value,
};

/// The rules of SetInsert and SetErase, also where they meet the instructions of tables, objects, fields and lists.
pub struct SetRules;

impl Meets<EraseObject, SetInsert> for SetRules {
    fn meet(left: EraseObject, right: SetInsert, _: bool) -> Result<Outcome, Mismatch> {
        left_wins(erases(&left, &right.cell), left, right)
    }
}

impl Meets<EraseObject, SetErase> for SetRules {
    fn meet(left: EraseObject, right: SetErase, _: bool) -> Result<Outcome, Mismatch> {
        left_wins(erases(&left, &right.cell), left, right)
    }
}

impl Meets<SetInsert, EraseObject> for SetRules {
    fn meet(left: SetInsert, right: EraseObject, _: bool) -> Result<Outcome, Mismatch> {
        right_wins(is_erased(&left.cell, &right), left, right)
    }
}

impl Meets<SetInsert, SetErase> for SetRules {
    fn meet(left: SetInsert, right: SetErase, left_later: bool) -> Result<Outcome, Mismatch> {
        let clash = same_cell(&left.cell, &right.cell) && same_value(&left.value, &right.value);
        if left_later {
            left_wins(clash, left, right)
        } else {
            right_wins(clash, left, right)
        }
    }
}

impl Meets<SetErase, EraseObject> for SetRules {
    fn meet(left: SetErase, right: EraseObject, _: bool) -> Result<Outcome, Mismatch> {
        right_wins(is_erased(&left.cell, &right), left, right)
    }
}

impl Meets<SetErase, SetInsert> for SetRules {
    fn meet(left: SetErase, right: SetInsert, left_later: bool) -> Result<Outcome, Mismatch> {
        let clash = same_cell(&left.cell, &right.cell) && same_value(&left.value, &right.value);
        if left_later {
            left_wins(clash, left, right)
        } else {
            right_wins(clash, left, right)
        }
    }
}
