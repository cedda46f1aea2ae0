//! What is saved of a change on other objects.

use crate::spelled::{PRELUDE, changes, store_of};
use std::alloc::Global;
use sync_base::{Changeset, Instr};
use sync_codec::encode;
use sync_reset::{Saved, saved};

/// A column age of integers.
const AGE: [u8; 15] = [1, 2, 1, 116, 3, 97, 103, 101, 1, 2, 0, 1, 1, 0, 0];

/// A column age of texts, "x" at place 3 of the 3 elements of list l, and 5 for n of object 9.
const CHANGE: [u8; 36] = [
    1, 4, 1, 116, 3, 97, 103, 101, 1, 108, 1, 110, 3, 2, 0, 1, 3, 0, 0, 8, 0, 0, 2, 2, 3, 3, 3, 1,
    120, 5, 0, 0, 18, 3, 1, 10,
];

/// "x" at place 0 of the empty list l.
const KEPT: [u8; 17] = [1, 2, 1, 116, 1, 108, 1, 8, 0, 0, 2, 1, 0, 0, 3, 1, 120];

/// Whether that is dropped there.
fn dropped_at(saved: &Saved, index: usize, place: u32, code: u8) -> bool {
    match saved.dropped.as_slice().get(index) {
        Some(found) => found.place == place && found.code == code,
        None => false,
    }
}

/// Whether the column and the object that isn't there are dropped.
fn drops(saved: &Saved) -> bool {
    saved.dropped.as_slice().len() == 2
        && dropped_at(saved, 0, 0, 12)
        && dropped_at(saved, 1, 2, 30)
}

fn is_kept(alloc: Global, kept: Vec<Instr>) -> bool {
    match Changeset::checked(0, kept) {
        Ok(kept) => match encode(alloc, &kept) {
            Ok(spelled) => spelled.as_slice() == &KEPT[..],
            Err(_) => false,
        },
        Err(_) => false,
    }
}

pub fn what_breaks_is_dropped_and_the_rest_is_made_to_fit(alloc: Global) -> bool {
    let (Some(objects), Some(change)) = (
        store_of(alloc, &[&PRELUDE, &AGE]),
        changes(alloc, &CHANGE),
    ) else {
        return false;
    };
    match saved(alloc, &objects, &change) {
        Ok(saved) => drops(&saved) && is_kept(alloc, saved.kept.into_vec()),
        Err(_) => false,
    }
}
