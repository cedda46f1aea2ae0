ghost use Rattle.std.specs.Prelude.{◌≡◌, Ok, Some, None, true, false, cond};
ghost use Rattle.std.specs.Ordering.{eq_by_cmp};
ghost use Rattle.sync_base.specs.Effects.{path_of};
ghost use Rattle.sync_base.specs.States.{object_cmp};

use super::act::Act;
use super::answers::{Mismatch, Outcome};
use super::meets::{keep_both, keep_left, keep_neither, keep_right};
use super::same::same_object;
use sync_data::{CellName, EraseObject};

/// Where the sides clash, the left alone stays; else both.
pub fn left_wins<A: Act, B: Act + Drop>(clash: bool, left: A, right: B) -> Result<Outcome, Mismatch>
    ensures { result ≡ Ok (record { left = Some (A.instr left); right = cond clash None (Some (B.instr right)) }) }
{
    if clash {
        keep_left(left)
    } else {
        keep_both(left, right)
    }
}

/// Where the sides clash, the right alone stays; else both.
pub fn right_wins<A: Act + Drop, B: Act>(
    clash: bool,
    left: A,
    right: B,
) -> Result<Outcome, Mismatch>
    ensures { result ≡ Ok (record { left = cond clash None (Some (A.instr left)); right = Some (B.instr right) }) }
{
    if clash {
        keep_right(right)
    } else {
        keep_both(left, right)
    }
}

/// Where the sides clash, neither stays; else both.
pub fn neither_wins<A: Act + Drop, B: Act + Drop>(
    clash: bool,
    left: A,
    right: B,
) -> Result<Outcome, Mismatch>
    ensures { result ≡ Ok (record { left = cond clash None (Some (A.instr left)); right = cond clash None (Some (B.instr right)) }) }
{
    if clash {
        keep_neither()
    } else {
        keep_both(left, right)
    }
}

/// Where the sides clash, the later alone stays; else both.
pub fn later_wins<A: Act + Drop, B: Act + Drop>(
    clash: bool,
    left_later: bool,
    left: A,
    right: B,
) -> Result<Outcome, Mismatch>
    ensures left { left_later ≡ true → result ≡ Ok (record { left = Some (A.instr left); right = cond clash None (Some (B.instr right)) }) }
    ensures right { left_later ≡ false → result ≡ Ok (record { left = cond clash None (Some (A.instr left)); right = Some (B.instr right) }) }
{
    if left_later {
        left_wins(clash, left, right)
    } else {
        right_wins(clash, left, right)
    }
}

/// Whether the cell is one of the erased object's.
pub fn is_erased(cell: &CellName, erase: &EraseObject) -> bool
    ensures { result ≡ eq_by_cmp object_cmp (path_of cell.now).0 (erase.now.table, erase.now.key) }
{
    same_object(&cell.table, &cell.key, &erase.table, &erase.key)
}

/// Whether the erased object is the cell's.
pub fn erases(erase: &EraseObject, cell: &CellName) -> bool
    ensures { result ≡ eq_by_cmp object_cmp (erase.now.table, erase.now.key) (path_of cell.now).0 }
{
    same_object(&erase.table, &erase.key, &cell.table, &cell.key)
}
