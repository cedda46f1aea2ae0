ghost use Rattle.std.specs.Prelude.{◌≡◌, false, true, Some, Ok, IsFalse, IsTrue};
ghost use Rattle.sync_base.specs.After.{added};
ghost use Rattle.sync_base.specs.Effects.{effect_of, path_of};
ghost use Rattle.sync_base.specs.Objects.{cell_in};
ghost use Rattle.sync_law.specs.Instrs.{meet};

use super::staying::both_stay;
use list_places::{action_at, both_move, put_action};
use sync_base::{AddInteger, Instr, Update, Value, cell_of, same_cell};

/// Two instructions meet where they lie, so that none is moved, where both stay. Whether they do: both are then as they are after
/// the meeting. Else both are as they were, and `meet` has to tell. It may say no where both stay.
pub fn meet_where_they_lie(left: &mut Instr, right: &mut Instr, left_later: bool) -> bool
    ensures both { IsTrue result → meet left.old right.old left_later ≡ Ok (Some left.new, Some right.new) }
    ensures left { IsFalse result → left.new ≡ left.old }
    ensures right { IsFalse result → right.new ≡ right.old }
{
    if shift_both(left, right, left_later) {
        return true;
    }
    if add_to_update(left, right, left_later) {
        return true;
    }
    both_stay(left, right)
}

/// Two instructions of one list stand where they do after the meeting.
fn shift_both(left: &mut Instr, right: &mut Instr, left_later: bool) -> bool
    ensures both { IsTrue result → meet left.old right.old left_later ≡ Ok (Some left.new, Some right.new) }
    ensures left { IsFalse result → left.new ≡ left.old }
    ensures right { IsFalse result → right.new ≡ right.old }
{
    let (Some(action), Some(other)) = (action_at(left), action_at(right)) else {
        return false;
    };
    if !are_of_one_cell(left, right) {
        return false;
    }
    let Some(moves) = both_move(action, other, left_later) else {
        return false;
    };
    put_action(left, moves.left);
    put_action(right, moves.right);
    true
}

fn are_of_one_cell(left: &Instr, right: &Instr) -> bool
    ensures { IsTrue result → cell_in (effect_of left.now) ≡ cell_in (effect_of right.now) }
{
    match (cell_of(left), cell_of(right)) {
        (Some(cell), Some(other)) => same_cell(cell, other),
        _ => false,
    }
}

/// Of an addition and an earlier update of its cell, on either side, the update is one to the sum.
fn add_to_update(left: &mut Instr, right: &mut Instr, left_later: bool) -> bool
    ensures both { IsTrue result → meet left.old right.old left_later ≡ Ok (Some left.new, Some right.new) }
    ensures left { IsFalse result → left.new ≡ left.old }
    ensures right { IsFalse result → right.new ≡ right.old }
{
    if left_later {
        add_to_right(left, right)
    } else {
        add_to_left(left, right)
    }
}

fn add_to_right(left: &Instr, right: &mut Instr) -> bool
    ensures both { IsTrue result → meet left.now right.old true ≡ Ok (Some left.now, Some right.new) }
    ensures unchanged { IsFalse result → right.new ≡ right.old }
{
    let Instr::AddInteger(add) = left else {
        return false;
    };
    let Instr::Update(update) = right else {
        return false;
    };
    raise(update, add)
}

fn add_to_left(left: &mut Instr, right: &Instr) -> bool
    ensures both { IsTrue result → meet left.old right.now false ≡ Ok (Some left.new, Some right.now) }
    ensures unchanged { IsFalse result → left.new ≡ left.old }
{
    let Instr::AddInteger(add) = right else {
        return false;
    };
    let Instr::Update(update) = left else {
        return false;
    };
    raise(update, add)
}

/// The update to the sum, modulo 2^64, where the addition is to its cell. A value that isn't a number stays.
#[tactic(auto, using(std::proofs::lemmas::Int::wrapping_add_is))]
fn raise(update: &mut Update, add: &AddInteger) -> bool
    ensures cell { IsTrue result → path_of update.old.cell ≡ path_of add.now.cell }
    ensures raised { IsTrue result → update.new ≡ record { cell = update.old.cell; value = added add.now.amount update.old.value } }
    ensures unchanged { IsFalse result → update.new ≡ update.old }
{
    if !same_cell(&update.cell, &add.cell) {
        return false;
    }
    if let Value::Int(number) = &mut update.value {
        *number = number.wrapping_add(add.amount);
    }
    true
}
