//! How a list in blocks treats its items, also where memory is refused.

ghost use Rattle.std.specs.Prelude.{◌≡◌, ℕ};

use std::alloc::{AllocError, Global};
use std::marker::Model;
use std::rc::Rc;
use sum_list::{Measured, SumList};

/// So many items lie in several blocks.
const MANY: usize = 300;

/// An item that counts how many of it live, and whose clone can fail. A clause sees each as 0.
#[derive(Drop)]
struct Told {
    live: Rc<i32>,
    block: Box<i32>,
}

impl Model for Told {
    ghost Value = { ℕ };

    ghost view = { λ _. 0 };
}

impl Clone for Told {
    ghost is_clone = { λ x y. y ≡ x };

    ghost is_infallible = { λ _. ⊥ };

    fn clone(&self) -> Result<Told, AllocError> {
        let block = self.block.clone()?;
        Ok(Told {
            live: self.live.clone()?,
            block,
        })
    }
}

impl Measured for Told {
    ghost before = { λ _. 0 };

    ghost after = { λ _. 0 };

    ghost first = { λ _. 0 };

    fn before(&self) -> u32 {
        0
    }

    fn after(&self) -> u32 {
        0
    }

    fn first(&self) -> u64 {
        0
    }
}

fn counted_item(alloc: Global, counted: &Rc<i32>) -> Option<Told> {
    let block = Box::new(alloc, 1).ok()?;
    let live = counted.clone().ok()?;
    Some(Told { live, block })
}

/// Whether the shared count of the items is one more for each that the list has.
fn is_counted(list: &SumList<Told>, counted: &Rc<i32>) -> bool {
    Rc::strong_count(counted) == list.len() + 1
}

/// Whether an item is put in, or the list is as it was.
fn puts_or_stays(alloc: Global, list: &mut SumList<Told>, counted: &Rc<i32>, at: usize) -> bool {
    let len = list.len();
    let place = at % (len + 1);
    match counted_item(alloc, counted) {
        Some(item) => {
            let is_put = list.insert(place, item).is_ok();
            list.len() == len + usize::from(is_put) && is_counted(list, counted)
        }
        None => is_counted(list, counted),
    }
}

/// Whether a copy has as many items of its own, or there is none.
fn copies_or_not(list: &SumList<Told>, counted: &Rc<i32>) -> bool {
    let len = list.len();
    match list.copy() {
        Ok(copy) => copy.len() == len && Rc::strong_count(counted) == len + len + 1,
        Err(_) => is_counted(list, counted),
    }
}

/// One of three steps replaces an item, the others take one out.
fn replaces_or_removes(
    alloc: Global,
    list: &mut SumList<Told>,
    counted: &Rc<i32>,
    step: usize,
) -> bool {
    let len = list.len();
    if len == 0 {
        return true;
    }
    let place = step % len;
    if step % 3 == 0 {
        if let Some(item) = counted_item(alloc, counted) {
            drop(list.replace(place, item));
        }
    } else {
        drop(list.remove(place));
    }
    is_counted(list, counted)
}

/// Whether each item lives while the list has it, and no longer, through insertions, a copy, replacements and removals.
fn keeps_count(alloc: Global, list: &mut SumList<Told>, counted: &Rc<i32>) -> bool {
    for i in 0..MANY {
        if !puts_or_stays(alloc, list, counted, i * 7) {
            return false;
        }
    }
    let is_copied = copies_or_not(list, counted) && is_counted(list, counted);
    for i in 0..MANY {
        if !replaces_or_removes(alloc, list, counted, i * 5) {
            return false;
        }
    }
    is_copied
}

/// Whether nothing is lost or dropped twice. It holds whichever allocation fails: in `trials` `rt try --fail-alloc N -- growth`.
pub fn each_item_lives_while_its_list_has_it(alloc: Global) -> bool {
    let Ok(counted) = Rc::new(alloc, 0) else {
        return true;
    };
    let mut list = SumList::new(alloc);
    let is_kept = keeps_count(alloc, &mut list, &counted);
    drop(list);
    is_kept && Rc::strong_count(&counted) == 1
}

/// Whether all items are put in, replaced and taken out where there is memory.
pub(crate) fn a_list_grows_and_shrinks(alloc: Global) -> bool {
    let Ok(counted) = Rc::new(alloc, 0) else {
        return false;
    };
    let mut list = SumList::new(alloc);
    keeps_count(alloc, &mut list, &counted) && list.len() == MANY / 3
}
