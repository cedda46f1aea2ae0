//! What is left where an object is created or erased.
#![tactic(auto)]

use sync_base::{
    CreateObject, EraseObject, Meets, Mismatch, Outcome, left_wins, neither_wins, right_wins,
    same_object,
};

/// The rules of CreateObject and EraseObject, also where they meet AddTable and AddColumn.
pub struct ObjectRules;

impl Meets<CreateObject, EraseObject> for ObjectRules {
    fn meet(left: CreateObject, right: EraseObject, _: bool) -> Result<Outcome, Mismatch> {
        let clash = same_object(&left.table, &left.key, &right.table, &right.key);
        right_wins(clash, left, right)
    }
}

impl Meets<EraseObject, CreateObject> for ObjectRules {
    fn meet(left: EraseObject, right: CreateObject, _: bool) -> Result<Outcome, Mismatch> {
        let clash = same_object(&left.table, &left.key, &right.table, &right.key);
        left_wins(clash, left, right)
    }
}

impl Meets<EraseObject, EraseObject> for ObjectRules {
    fn meet(left: EraseObject, right: EraseObject, _: bool) -> Result<Outcome, Mismatch> {
        let clash = same_object(&left.table, &left.key, &right.table, &right.key);
        neither_wins(clash, left, right)
    }
}
