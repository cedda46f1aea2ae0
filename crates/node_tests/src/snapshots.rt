//! A store as changesets that lead to it.

use crate::spelled::{PRELUDE, changes, store_of};
use std::alloc::Global;
use sync_base::Changeset;
use sync_codec::encode;
use sync_snapshot::{GrowRefusal, build, grown};

/// The objects of the prelude as a state's list: columns in order of names.
const BUILT: [u8; 61] = [
    1, 7, 1, 116, 1, 107, 1, 108, 1, 109, 1, 110, 1, 115, 1, 117, 8, 1, 0, 0, 2, 0, 1, 7, 1, 0, 0,
    2, 0, 2, 3, 0, 1, 2, 0, 3, 1, 1, 0, 2, 0, 4, 1, 0, 0, 2, 0, 5, 3, 1, 0, 2, 0, 6, 1, 0, 2, 3, 0,
    0, 2,
];

/// Whether these are one changeset with time 0 and these bytes.
fn is_one(alloc: Global, parts: &[Changeset], bytes: &[u8]) -> bool {
    match parts {
        [part] => match encode(alloc, part) {
            Ok(spelled) => part.ms() == 0 && spelled.as_slice() == bytes,
            Err(_) => false,
        },
        _ => false,
    }
}

/// Whether the parts grow a store that is built as the list.
fn grows(alloc: Global, parts: &[Changeset]) -> bool {
    match grown(alloc, parts) {
        Ok(store) => match build(alloc, &store) {
            Ok(again) => is_one(alloc, again.as_slice(), &BUILT),
            Err(_) => false,
        },
        Err(_) => false,
    }
}

pub fn a_state_is_built_in_order_of_names(alloc: Global) -> bool {
    let Some(store) = store_of(alloc, &[&PRELUDE]) else {
        return false;
    };
    match build(alloc, &store) {
        Ok(parts) => is_one(alloc, parts.as_slice(), &BUILT) && grows(alloc, parts.as_slice()),
        Err(_) => false,
    }
}

/// The changesets that are spelled so.
fn parts_of(alloc: Global, spelled: &[&[u8]]) -> Option<Vec<Changeset>> {
    let mut parts = Vec::new(alloc);
    for bytes in spelled {
        let part = changes(alloc, bytes)?;
        if parts.push(part).is_err() {
            return None;
        }
    }
    Some(parts)
}

/// Whether these parts grow a store, or else the part at this place is named.
fn is_told(alloc: Global, spelled: &[&[u8]], bad: Option<u32>) -> bool {
    let Some(parts) = parts_of(alloc, spelled) else {
        return false;
    };
    match grown(alloc, parts.as_slice()) {
        Ok(_) => bad.is_none(),
        Err(GrowRefusal::BadPart { place }) => bad == Some(place),
        Err(_) => false,
    }
}

pub fn a_part_that_is_no_part_is_named(alloc: Global) -> bool {
    is_told(alloc, &[], None)
        && is_told(alloc, &[&PRELUDE], Some(0))
        && is_told(alloc, &[&BUILT], None)
        && is_told(alloc, &[&BUILT, &BUILT], Some(1))
}
