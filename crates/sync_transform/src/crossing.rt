ghost use Rattle.std.specs.Prelude.{◌≡◌, ◌≤◌, ◌<◌, Some, Ok, Err, IfOk, IfErr, length, take, drop, vec_len};
ghost use Rattle.std.specs.Option.{option_copied};
ghost use Rattle.sync_theory.specs.Lists.{cross as crossed, run, Agreement};
ghost use Rattle.sync_base.specs.States.{State, IsState};
ghost use Rattle.sync_base.specs.Checks.{act};
ghost use Rattle.sync_law.specs.Instrs.{meet};
ghost use Rattle.sync_index.specs.Touched.{Covers};
ghost use Rattle.sync_transform.specs.Indexes.{IsCovered};

use super::row::{RowMismatch, pass_indexed};
use super::slots::{hole, lay, lift};
use sync_base::{Instr, Mismatch};
use sync_index::Index;

/// Where two lists can't cross: the place in the left list as given, the place in the right list as carried so far, and
/// why.
#[derive(Clone, Copy, Debug, PartialEq, Eq)]
pub struct CrossMismatch {
    pub left_place: u32,
    pub right_place: u32,
    pub kind: Mismatch,
}

/// Two lists that were made on one state, each as carried over the other: each left instruction in turn meets the right
/// list as carried so far, from its front. The mismatch is the first that is met. Where both act on a state, each and then
/// the other as carried end in one state. It takes no memory.
pub fn cross(
    left: Vec<Instr>,
    right: Vec<Instr>,
    left_later: bool,
) -> Result<(Vec<Instr>, Vec<Instr>), CrossMismatch>
    requires left_size { vec_len left ≤ 65536 }
    requires right_size { vec_len right ≤ 65536 }
    ensures ok { IfOk result (λ p. crossed (λ a b. meet a b left_later) left.items right.items ≡ Ok (p.0.items, p.1.items)) }
    ensures stuck { IfErr result (λ e. crossed (λ a b. meet a b left_later) left.items right.items ≡ Err (e.left_place, e.right_place, e.kind)) }
    ensures agree { (s after_left after_right : State) → IsState s → run act left.items s ≡ Some after_left → run act right.items s ≡ Some after_right → IfOk result (λ p. Agreement act p.0.items p.1.items after_left after_right) }
{
    cross_all(left, right, None, left_later)
}

/// `cross`, with an index of the right list: what may not touch the right list is passed over. The index is one of the
/// right list as carried, too. It takes no memory.
pub fn cross_indexed(
    left: Vec<Instr>,
    right: Vec<Instr>,
    index: &Index,
    left_later: bool,
) -> Result<(Vec<Instr>, Vec<Instr>), CrossMismatch>
    requires left_size { vec_len left ≤ 65536 }
    requires right_size { vec_len right ≤ 65536 }
    requires indexed { Covers index.now right.items }
    ensures ok { IfOk result (λ p. crossed (λ a b. meet a b left_later) left.items right.items ≡ Ok (p.0.items, p.1.items)) }
    ensures stuck { IfErr result (λ e. crossed (λ a b. meet a b left_later) left.items right.items ≡ Err (e.left_place, e.right_place, e.kind)) }
    ensures indexed { IfOk result (λ p. Covers index.now p.1.items) }
    ensures agree { (s after_left after_right : State) → IsState s → run act left.items s ≡ Some after_left → run act right.items s ≡ Some after_right → IfOk result (λ p. Agreement act p.0.items p.1.items after_left after_right) }
{
    cross_all(left, right, Some(index), left_later)
}

pub(crate) fn cross_all(
    left: Vec<Instr>,
    right: Vec<Instr>,
    index: Option<&Index>,
    left_later: bool,
) -> Result<(Vec<Instr>, Vec<Instr>), CrossMismatch>
    requires left_size { vec_len left ≤ 65536 }
    requires right_size { vec_len right ≤ 65536 }
    requires indexed { IsCovered (option_copied index) right.items }
    ensures ok { IfOk result (λ p. crossed (λ a b. meet a b left_later) left.items right.items ≡ Ok (p.0.items, p.1.items)) }
    ensures stuck { IfErr result (λ e. crossed (λ a b. meet a b left_later) left.items right.items ≡ Err (e.left_place, e.right_place, e.kind)) }
    ensures indexed { IfOk result (λ p. IsCovered (option_copied index.entry) p.1.items) }
{
    let mut lefts = left;
    let mut rights = right;
    match cross_slices(&mut lefts, &mut rights, index, left_later) {
        Err(stop) => Err(stop),
        Ok(Kept { written, freed }) => {
            lefts.truncate(written);
            drop_front(&mut rights, freed);
            Ok((lefts, rights))
        }
    }
}

/// Takes the first elements out.
fn drop_front<T: Drop>(items: &mut Vec<T>, count: usize)
    requires { count ≤ vec_len items.old }
    ensures { items.new.items ≡ drop count items.old.items }
{
    let rest = items.len() - count;
    items.rotate_left(count);
    items.truncate(rest);
}

/// What is left of two lists that crossed: so many at the front of the left one, and all but so many of the right one.
struct Kept {
    written: usize,
    freed: usize,
}

fn cross_slices(
    lefts: &mut [Instr],
    rights: &mut [Instr],
    index: Option<&Index>,
    left_later: bool,
) -> Result<Kept, CrossMismatch>
    requires left_size { length lefts.old ≤ 65536 }
    requires right_size { length rights.old ≤ 65536 }
    requires indexed { IsCovered (option_copied index) rights.old }
    ensures ok { IfOk result (λ k. crossed (λ a b. meet a b left_later) lefts.old rights.old ≡ Ok (take k.written lefts.new, drop k.freed rights.new)) }
    ensures freed { IfOk result (λ k. k.freed ≤ length rights.old) }
    ensures indexed { IfOk result (λ k. IsCovered (option_copied index.entry) (drop k.freed rights.new)) }
    ensures stuck { IfErr result (λ e. crossed (λ a b. meet a b left_later) lefts.old rights.old ≡ Err (e.left_place, e.right_place, e.kind)) }
{
    let mut read = 0;
    let mut written = 0;
    let mut freed = 0;
    while read < lefts.len() {
        let left = lift(lefts, read, hole());
        match pass_indexed(left, &mut rights[freed..], index, left_later) {
            Err(stop) => return Err(stopped(read, stop)),
            Ok(passed) => {
                read += 1;
                written = lay(lefts, written, passed.left);
                freed += passed.freed;
            }
        }
    }
    Ok(Kept { written, freed })
}

fn stopped(left_place: usize, stop: RowMismatch) -> CrossMismatch
    requires left { left_place < 65536 }
    requires right { stop.place < 65536 }
    ensures { result ≡ record { left_place = left_place; right_place = stop.place; kind = stop.kind } }
{
    CrossMismatch {
        left_place: left_place as u32,
        right_place: stop.place as u32,
        kind: stop.kind,
    }
}
