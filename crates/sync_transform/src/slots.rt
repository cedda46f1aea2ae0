ghost use Rattle.std.specs.Prelude.{◌≡◌, ◌<◌, ◌≤◌, ◌+◌, ◌-◌, ℕ, ◌∷◌, ◌++◌, Some, length, take, drop};
ghost use Rattle.sync_data.specs.declared.instr.Instr.{Instr};
ghost use Rattle.sync_theory.specs.Lists.{kept};

use std::mem;
use sync_base::{AddTable, Instr, KeyKind, Name};

/// What stands in a place while its instruction is out.
pub(crate) fn hole() -> Instr {
    Instr::AddTable(AddTable {
        table: Name::new("h").unwrap(),
        key: KeyKind::Int,
    })
}

/// Takes an element out, and leaves `hole` in its place.
pub(crate) fn lift<T>(items: &mut [T], place: usize, hole: T) -> T
    requires { place < length items.old }
    ensures before { (n : ℕ) → n ≤ place → take n items.new ≡ take n items.old }
    ensures after { drop place items.old ≡ result ∷ drop (place + 1) items.new }
{
    mem::replace(&mut items[place], hole)
}

/// Puts an element into a place.
pub(crate) fn put<T: Drop>(place: &mut T, item: T)
    ensures { place.new ≡ item }
{
    *place = item;
}

/// Puts one element or none into a place, and tells where the next one goes.
pub(crate) fn lay<T: Drop>(items: &mut [T], place: usize, item: Option<T>) -> usize
    requires { place < length items.old }
    ensures before { take result items.new ≡ take place items.old ++ kept item }
    ensures after { (n : ℕ) → place < n → drop n items.new ≡ drop n items.old }
    ensures next { result ≤ place + 1 }
{
    match item {
        Some(item) => {
            items[place] = item;
            place + 1
        }
        None => place,
    }
}

/// Keeps the element at a place, in the first free place, and tells where the next one goes.
pub(crate) fn settle(items: &mut [Instr], written: usize, read: usize) -> usize
    requires order { written ≤ read }
    requires within { read < length items.old }
    ensures before { (b : Instr) → drop read items.old ≡ b ∷ drop (read + 1) items.old → take result items.new ≡ take written items.old ++ kept (Some b) }
    ensures after { drop (read + 1) items.new ≡ drop (read + 1) items.old }
    ensures next { result ≤ written + 1 }
{
    if written == read {
        return written + 1;
    }
    let item = lift(items, read, hole());
    lay(items, written, Some(item))
}

/// Moves what lies between two places to the front.
pub(crate) fn close<T>(items: &mut [T], written: usize, read: usize) -> usize
    requires order { written ≤ read }
    requires within { read ≤ length items.old }
    ensures rest { drop result items.new ≡ take written items.old ++ drop read items.old }
    ensures front { result ≡ read - written }
{
    let lost = read - written;
    items[..read].rotate_right(lost);
    lost
}
