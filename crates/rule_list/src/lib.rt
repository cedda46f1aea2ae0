//! What is left where an element of a list is inserted, erased or updated.
#![tactic(auto)]

mod places;
mod shifts;

use places::{common_length, erase_at, growing_length, update_at};
pub use shifts::{shift_erasure_and_insertion, shift_insertion_and_erasure, shift_insertions};
use sync_base::{
    EraseObject, ListErase, ListInsert, ListUpdate, Meets, Mismatch, Outcome, erases, is_erased,
    keep_both, keep_left, keep_neither, keep_right, later_wins, left_wins, right_wins, same_cell,
};

/// The rules of ListUpdate, ListInsert and ListErase, also where they meet what isn't of a list.
pub struct ListRules;

impl Meets<EraseObject, ListUpdate> for ListRules {
    fn meet(left: EraseObject, right: ListUpdate, _: bool) -> Result<Outcome, Mismatch> {
        left_wins(erases(&left, &right.cell), left, right)
    }
}

impl Meets<EraseObject, ListInsert> for ListRules {
    fn meet(left: EraseObject, right: ListInsert, _: bool) -> Result<Outcome, Mismatch> {
        left_wins(erases(&left, &right.cell), left, right)
    }
}

impl Meets<EraseObject, ListErase> for ListRules {
    fn meet(left: EraseObject, right: ListErase, _: bool) -> Result<Outcome, Mismatch> {
        left_wins(erases(&left, &right.cell), left, right)
    }
}

impl Meets<ListUpdate, EraseObject> for ListRules {
    fn meet(left: ListUpdate, right: EraseObject, _: bool) -> Result<Outcome, Mismatch> {
        right_wins(is_erased(&left.cell, &right), left, right)
    }
}

impl Meets<ListInsert, EraseObject> for ListRules {
    fn meet(left: ListInsert, right: EraseObject, _: bool) -> Result<Outcome, Mismatch> {
        right_wins(is_erased(&left.cell, &right), left, right)
    }
}

impl Meets<ListErase, EraseObject> for ListRules {
    fn meet(left: ListErase, right: EraseObject, _: bool) -> Result<Outcome, Mismatch> {
        right_wins(is_erased(&left.cell, &right), left, right)
    }
}

// In each row `p` and `q` are the places of the left and the right side, and `n` is the length beside them.

impl Meets<ListUpdate, ListUpdate> for ListRules {
    fn meet(left: ListUpdate, right: ListUpdate, left_later: bool) -> Result<Outcome, Mismatch> {
        if !same_cell(&left.cell, &right.cell) {
            return keep_both(left, right);
        }
        match common_length(left.spot.prior(), right.spot.prior()) {
            Err(mismatch) => Err(mismatch),
            Ok(_) => {
                let clash = left.spot.place() == right.spot.place();
                later_wins(clash, left_later, left, right)
            }
        }
    }
}

impl Meets<ListUpdate, ListInsert> for ListRules {
    fn meet(left: ListUpdate, right: ListInsert, _: bool) -> Result<Outcome, Mismatch> {
        if !same_cell(&left.cell, &right.cell) {
            return keep_both(left, right);
        }
        let (p, q) = (left.spot.place(), right.spot.place());
        match growing_length(left.spot.prior(), right.spot.prior()) {
            Err(mismatch) => Err(mismatch),
            Ok(n) if q <= p => keep_both(update_at(left, p + 1, n + 1), right),
            Ok(n) => keep_both(update_at(left, p, n + 1), right),
        }
    }
}

impl Meets<ListUpdate, ListErase> for ListRules {
    fn meet(left: ListUpdate, right: ListErase, _: bool) -> Result<Outcome, Mismatch> {
        if !same_cell(&left.cell, &right.cell) {
            return keep_both(left, right);
        }
        let (p, q) = (left.spot.place(), right.spot.place());
        match common_length(left.spot.prior(), right.spot.prior()) {
            Err(mismatch) => Err(mismatch),
            Ok(_) if p == q => keep_right(right),
            Ok(n) if q < p => keep_both(update_at(left, p - 1, n - 1), right),
            Ok(n) => keep_both(update_at(left, p, n - 1), right),
        }
    }
}

impl Meets<ListInsert, ListUpdate> for ListRules {
    fn meet(left: ListInsert, right: ListUpdate, _: bool) -> Result<Outcome, Mismatch> {
        if !same_cell(&left.cell, &right.cell) {
            return keep_both(left, right);
        }
        let (p, q) = (left.spot.place(), right.spot.place());
        match growing_length(left.spot.prior(), right.spot.prior()) {
            Err(mismatch) => Err(mismatch),
            Ok(n) if p <= q => keep_both(left, update_at(right, q + 1, n + 1)),
            Ok(n) => keep_both(left, update_at(right, q, n + 1)),
        }
    }
}

impl Meets<ListInsert, ListInsert> for ListRules {
    fn meet(left: ListInsert, right: ListInsert, left_later: bool) -> Result<Outcome, Mismatch> {
        let (mut left, mut right) = (left, right);
        match shift_insertions(&mut left, &mut right, left_later) {
            Ok(()) => keep_both(left, right),
            Err(mismatch) => Err(mismatch),
        }
    }
}

impl Meets<ListInsert, ListErase> for ListRules {
    fn meet(left: ListInsert, right: ListErase, left_later: bool) -> Result<Outcome, Mismatch> {
        let (mut left, mut right) = (left, right);
        match shift_insertion_and_erasure(&mut left, &mut right, left_later) {
            Ok(()) => keep_both(left, right),
            Err(mismatch) => Err(mismatch),
        }
    }
}

impl Meets<ListErase, ListUpdate> for ListRules {
    fn meet(left: ListErase, right: ListUpdate, _: bool) -> Result<Outcome, Mismatch> {
        if !same_cell(&left.cell, &right.cell) {
            return keep_both(left, right);
        }
        let (p, q) = (left.spot.place(), right.spot.place());
        match common_length(left.spot.prior(), right.spot.prior()) {
            Err(mismatch) => Err(mismatch),
            Ok(_) if p == q => keep_left(left),
            Ok(n) if p < q => keep_both(left, update_at(right, q - 1, n - 1)),
            Ok(n) => keep_both(left, update_at(right, q, n - 1)),
        }
    }
}

impl Meets<ListErase, ListInsert> for ListRules {
    fn meet(left: ListErase, right: ListInsert, left_later: bool) -> Result<Outcome, Mismatch> {
        let (mut left, mut right) = (left, right);
        match shift_erasure_and_insertion(&mut left, &mut right, left_later) {
            Ok(()) => keep_both(left, right),
            Err(mismatch) => Err(mismatch),
        }
    }
}

impl Meets<ListErase, ListErase> for ListRules {
    fn meet(left: ListErase, right: ListErase, _: bool) -> Result<Outcome, Mismatch> {
        if !same_cell(&left.cell, &right.cell) {
            return keep_both(left, right);
        }
        let (p, q) = (left.spot.place(), right.spot.place());
        match common_length(left.spot.prior(), right.spot.prior()) {
            Err(mismatch) => Err(mismatch),
            Ok(_) if p == q => keep_neither(),
            Ok(n) if p < q => keep_both(erase_at(left, p, n - 1), erase_at(right, q - 1, n - 1)),
            Ok(n) => keep_both(erase_at(left, p - 1, n - 1), erase_at(right, q, n - 1)),
        }
    }
}
