//! Unsent changesets, so many that they are indexed, and entries that meet one of them each.

use std::alloc::Global;
use sync_base::{CellName, Changeset, Entry, Instr, Key, Name, Update, Value};
use sync_rebase::{PendingList, Unsent};

fn put<T: Drop>(list: &mut Vec<T>, item: T) -> Option<()> {
    list.push(item).ok()
}

fn cell(key: u32) -> Option<CellName> {
    Some(CellName {
        table: Name::new("t").ok()?,
        key: Key::Int(key as i64),
        column: Name::new("n").ok()?,
    })
}

/// An update of the cell of an object, at a time.
fn update(alloc: Global, key: u32, ms: u64) -> Option<Changeset> {
    let mut instrs = Vec::new(alloc);
    let cell = cell(key)?;
    let value = Value::Int(3);
    put(&mut instrs, Instr::Update(Update { cell, value }))?;
    Changeset::checked(ms, instrs).ok()
}

/// A hundred unsent changesets, each of an object of its own.
fn unsent(alloc: Global) -> Option<PendingList> {
    let mut list = PendingList::new(alloc);
    for key in 0..100u32 {
        list.push(Unsent::made(1, 0, update(alloc, key, 5)?).ok()?)
            .ok()?;
    }
    Some(list)
}

/// Whether nothing is left of the changeset at a place.
fn is_gone(list: &PendingList, place: usize) -> Option<bool> {
    Some(list.current(place)?.ok()?.instrs().is_empty())
}

/// The place of the last changeset of which nothing is left.
fn last_gone(list: &PendingList) -> Option<usize> {
    let mut last = None;
    for place in 0..list.len() {
        if is_gone(list, place)? {
            last = Some(place);
        }
    }
    last
}

/// Whether a later update of that object is taken as it is, and leaves nothing of the changeset there, which is the last such.
fn meets_its_rival(alloc: Global, list: &mut PendingList, key: u32) -> Option<bool> {
    let entry = Entry {
        origin: 2,
        number: 1,
        changes: update(alloc, key, 6)?,
    };
    let carried = list.carry(alloc, 1, entry).ok()?;
    let taken = list.settle(carried);
    Some(taken == update(alloc, key, 6)? && last_gone(list) == Some(key as usize))
}

/// Each of a hundred entries updates the object of an unsent changeset earlier than it.
fn each_meets_its_rival(alloc: Global) -> Option<bool> {
    let mut list = unsent(alloc)?;
    for key in 0..100u32 {
        if !meets_its_rival(alloc, &mut list, key)? {
            return Some(false);
        }
    }
    Some(true)
}

pub(crate) fn each_entry_meets_its_rival(alloc: Global) -> bool {
    each_meets_its_rival(alloc) == Some(true)
}
