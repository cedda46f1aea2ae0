ghost use Rattle.std.specs.Prelude.{◌≡◌, ◌<◌, ◌≤◌, ◌+◌, Some, None, Ok, Err, IfOk, IfErr, IsTrue, List, cond, length, take, drop};
ghost use Rattle.std.specs.Option.{option_copied};
ghost use Rattle.sync_data.specs.declared.instr.Instr.{Instr};
ghost use Rattle.sync_index.specs.Touched.{ApartFromAll};
ghost use Rattle.sync_transform.specs.Indexes.{IsCovered};
ghost use Rattle.sync_theory.specs.Lists.{row};
ghost use Rattle.sync_theory.specs.Loops.{row_after};
ghost use Rattle.sync_law.specs.Instrs.{meet};

use super::in_place::meet_where_they_lie;
use super::pairs::meet;
use super::slots::{close, hole, lay, lift, put, settle};
use std::mem;
use sync_base::{Instr, Mismatch, Outcome};
use sync_index::Index;

/// An instruction that passed a list: what is left of it, and how many places at the front of the list are free now.
#[derive(Drop)]
pub(crate) struct Passed {
    pub(crate) left: Option<Instr>,
    pub(crate) freed: usize,
}

/// After a meeting in a list: whether the instruction is still there, and where the next of the list goes.
#[derive(Clone, Copy)]
struct Step {
    stays: bool,
    next: usize,
}

/// Where an instruction can't pass a list: the place in the list as it was passed so far.
#[derive(Clone, Copy)]
pub(crate) struct RowMismatch {
    pub(crate) place: usize,
    pub(crate) kind: Mismatch,
}

/// `pass`, unless the index of the list tells that the instruction meets none of it.
pub(crate) fn pass_indexed(
    left: Instr,
    rights: &mut [Instr],
    index: Option<&Index>,
    left_later: bool,
) -> Result<Passed, RowMismatch>
    requires { IsCovered (option_copied index) rights.old }
    ensures ok { IfOk result (λ p. row (λ a b. meet a b left_later) (Some left) rights.old ≡ Ok (p.left, drop p.freed rights.new)) }
    ensures freed { IfOk result (λ p. p.freed ≤ length rights.old) }
    ensures err { IfErr result (λ e. row (λ a b. meet a b left_later) (Some left) rights.old ≡ Err (e.place, e.kind)) }
    ensures place { IfErr result (λ e. e.place < length rights.old) }
{
    if is_apart(index, &left) {
        return Ok(Passed {
            left: Some(left),
            freed: 0,
        });
    }
    pass(left, rights, left_later)
}

fn is_apart(index: Option<&Index>, instr: &Instr) -> bool
    ensures { IsTrue result → (instrs : List Instr) → IsCovered (option_copied index.entry) instrs → ApartFromAll instr.now instrs }
{
    match index {
        Some(index) => !index.may_touch(instr),
        None => false,
    }
}

/// An instruction meets each of a list in turn, from the front, and the list is rewritten in its place.
pub(crate) fn pass(
    left: Instr,
    rights: &mut [Instr],
    left_later: bool,
) -> Result<Passed, RowMismatch>
    ensures ok { IfOk result (λ p. row (λ a b. meet a b left_later) (Some left) rights.old ≡ Ok (p.left, drop p.freed rights.new)) }
    ensures freed { IfOk result (λ p. p.freed ≤ length rights.old) }
    ensures err { IfErr result (λ e. row (λ a b. meet a b left_later) (Some left) rights.old ≡ Err (e.place, e.kind)) }
    ensures place { IfErr result (λ e. e.place < length rights.old) }
{
    let mut now = left;
    let mut read = 0;
    let mut written = 0;
    while read < rights.len() {
        match meet_at(&mut now, rights, written, read, left_later) {
            Err(kind) => {
                drop(now);
                return Err(RowMismatch { place: read, kind });
            }
            Ok(Step { stays, next }) => {
                read += 1;
                written = next;
                if !stays {
                    drop(now);
                    let freed = close(rights, written, read);
                    return Ok(Passed { left: None, freed });
                }
            }
        }
    }
    let freed = close(rights, written, read);
    Ok(Passed {
        left: Some(now),
        freed,
    })
}

/// The instruction meets the one at a place of a list, of which the part before is done and written up to another place.
fn meet_at(
    left: &mut Instr,
    rights: &mut [Instr],
    written: usize,
    read: usize,
    left_later: bool,
) -> Result<Step, Mismatch>
    requires order { written ≤ read }
    requires within { read < length rights.old }
    ensures ok { IfOk result (λ s. row_after (take written rights.old) read (row (λ a b. meet a b left_later) (Some left.old) (drop read rights.old)) ≡ row_after (take s.next rights.new) (read + 1) (row (λ a b. meet a b left_later) (cond s.stays (Some left.new) None) (drop (read + 1) rights.new))) }
    ensures err { IfErr result (λ kind. row_after (take written rights.old) read (row (λ a b. meet a b left_later) (Some left.old) (drop read rights.old)) ≡ Err (read, kind)) }
    ensures next { IfOk result (λ s. s.next ≤ written + 1) }
{
    if meet_where_they_lie(left, &mut rights[read], left_later) {
        let next = settle(rights, written, read);
        return Ok(Step { stays: true, next });
    }
    meet_apart(left, rights, written, read, left_later)
}

/// The same of two instructions that are taken out of their places.
fn meet_apart(
    left: &mut Instr,
    rights: &mut [Instr],
    written: usize,
    read: usize,
    left_later: bool,
) -> Result<Step, Mismatch>
    requires order { written ≤ read }
    requires within { read < length rights.old }
    ensures ok { IfOk result (λ s. row_after (take written rights.old) read (row (λ a b. meet a b left_later) (Some left.old) (drop read rights.old)) ≡ row_after (take s.next rights.new) (read + 1) (row (λ a b. meet a b left_later) (cond s.stays (Some left.new) None) (drop (read + 1) rights.new))) }
    ensures err { IfErr result (λ kind. row_after (take written rights.old) read (row (λ a b. meet a b left_later) (Some left.old) (drop read rights.old)) ≡ Err (read, kind)) }
    ensures next { IfOk result (λ s. s.next ≤ written + 1) }
{
    let own = mem::replace(left, hole());
    let right = lift(rights, read, hole());
    match meet(own, right, left_later) {
        Err(kind) => Err(kind),
        Ok(Outcome { left: kept, right }) => {
            let next = lay(rights, written, right);
            match kept {
                Some(kept) => {
                    put(left, kept);
                    Ok(Step { stays: true, next })
                }
                None => Ok(Step { stays: false, next }),
            }
        }
    }
}
