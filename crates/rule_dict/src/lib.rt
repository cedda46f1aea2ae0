//! What is left where a key of a dictionary is bound, or a cell is cleared.
#![tactic(auto)]

mod clearing;

use sync_base::{
    Clear, DictUpdate, EraseObject, Meets, Mismatch, Outcome, erases, is_erased, later_wins,
    left_wins, right_wins, same_cell, same_text_key,
};

/// The rules of DictUpdate and Clear, also where they meet the instructions of tables, objects, fields, lists and sets.
pub struct DictRules;

impl Meets<EraseObject, DictUpdate> for DictRules {
    fn meet(left: EraseObject, right: DictUpdate, _: bool) -> Result<Outcome, Mismatch> {
        left_wins(erases(&left, &right.cell), left, right)
    }
}

impl Meets<EraseObject, Clear> for DictRules {
    fn meet(left: EraseObject, right: Clear, _: bool) -> Result<Outcome, Mismatch> {
        left_wins(erases(&left, &right.cell), left, right)
    }
}

impl Meets<DictUpdate, EraseObject> for DictRules {
    fn meet(left: DictUpdate, right: EraseObject, _: bool) -> Result<Outcome, Mismatch> {
        right_wins(is_erased(&left.cell, &right), left, right)
    }
}

impl Meets<DictUpdate, DictUpdate> for DictRules {
    fn meet(left: DictUpdate, right: DictUpdate, left_later: bool) -> Result<Outcome, Mismatch> {
        let clash = same_cell(&left.cell, &right.cell) && same_text_key(&left.at, &right.at);
        if left_later {
            left_wins(clash, left, right)
        } else {
            right_wins(clash, left, right)
        }
    }
}

impl Meets<Clear, EraseObject> for DictRules {
    fn meet(left: Clear, right: EraseObject, _: bool) -> Result<Outcome, Mismatch> {
        right_wins(is_erased(&left.cell, &right), left, right)
    }
}
