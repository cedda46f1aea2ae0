ghost use Rattle.std.specs.Prelude.{◌≡◌, ◌≤◌, ◌<◌, Some, Ok, Err, OnOk, IfErr};
ghost use Rattle.sync_base.specs.Rules.{meeting, spot};

use super::places::growing_length;
use sync_base::{Between, Inside, Instr, ListErase, ListInsert, Mismatch, same_cell};

fn gap(place: u32, prior: u32) -> Between
    requires { place ≤ prior }
    ensures { result ≡ spot place prior }
{
    Between::new(place, prior).unwrap()
}

fn element(place: u32, prior: u32) -> Inside
    requires { place < prior }
    ensures { result ≡ spot place prior }
{
    Inside::new(place, prior).unwrap()
}

/// Two insertions meet where they lie, by the row of the rule table: both stay.
pub fn shift_insertions(
    left: &mut ListInsert,
    right: &mut ListInsert,
    left_later: bool,
) -> Result<(), Mismatch>
    ensures ok { OnOk result (meeting (Instr.ListInsert left.old) (Instr.ListInsert right.old) left_later ≡ Ok (record { left = Some (Instr.ListInsert left.new); right = Some (Instr.ListInsert right.new) })) }
    ensures err { IfErr result (λ m. meeting (Instr.ListInsert left.old) (Instr.ListInsert right.old) left_later ≡ Err m) }
{
    if !same_cell(&left.cell, &right.cell) {
        return Ok(());
    }
    let (p, q) = (left.spot.place(), right.spot.place());
    match growing_length(left.spot.prior(), right.spot.prior()) {
        Err(mismatch) => return Err(mismatch),
        Ok(n) if p < q || p == q && !left_later => {
            left.spot = gap(p, n + 1);
            right.spot = gap(q + 1, n + 1);
        }
        Ok(n) => {
            left.spot = gap(p + 1, n + 1);
            right.spot = gap(q, n + 1);
        }
    }
    Ok(())
}

/// An insertion and an erasure meet where they lie, by the row of the rule table: both stay.
pub fn shift_insertion_and_erasure(
    left: &mut ListInsert,
    right: &mut ListErase,
    left_later: bool,
) -> Result<(), Mismatch>
    ensures ok { OnOk result (meeting (Instr.ListInsert left.old) (Instr.ListErase right.old) left_later ≡ Ok (record { left = Some (Instr.ListInsert left.new); right = Some (Instr.ListErase right.new) })) }
    ensures err { IfErr result (λ m. meeting (Instr.ListInsert left.old) (Instr.ListErase right.old) left_later ≡ Err m) }
{
    if !same_cell(&left.cell, &right.cell) {
        return Ok(());
    }
    let (p, q) = (left.spot.place(), right.spot.place());
    match growing_length(left.spot.prior(), right.spot.prior()) {
        Err(mismatch) => return Err(mismatch),
        Ok(n) if p <= q => {
            left.spot = gap(p, n - 1);
            right.spot = element(q + 1, n + 1);
        }
        Ok(n) => {
            left.spot = gap(p - 1, n - 1);
            right.spot = element(q, n + 1);
        }
    }
    Ok(())
}

/// An erasure and an insertion meet where they lie, by the row of the rule table: both stay.
pub fn shift_erasure_and_insertion(
    left: &mut ListErase,
    right: &mut ListInsert,
    left_later: bool,
) -> Result<(), Mismatch>
    ensures ok { OnOk result (meeting (Instr.ListErase left.old) (Instr.ListInsert right.old) left_later ≡ Ok (record { left = Some (Instr.ListErase left.new); right = Some (Instr.ListInsert right.new) })) }
    ensures err { IfErr result (λ m. meeting (Instr.ListErase left.old) (Instr.ListInsert right.old) left_later ≡ Err m) }
{
    if !same_cell(&left.cell, &right.cell) {
        return Ok(());
    }
    let (p, q) = (left.spot.place(), right.spot.place());
    match growing_length(left.spot.prior(), right.spot.prior()) {
        Err(mismatch) => return Err(mismatch),
        Ok(n) if q <= p => {
            left.spot = element(p + 1, n + 1);
            right.spot = gap(q, n - 1);
        }
        Ok(n) => {
            left.spot = element(p, n + 1);
            right.spot = gap(q - 1, n - 1);
        }
    }
    Ok(())
}
