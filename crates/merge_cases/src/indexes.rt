//! Which instructions an index of a list may touch, and which lists it passes over.

use About::{Adding, Clearing, Creating, Erasing, Table, Updating};
use std::alloc::Global;
use sync_base::{
    AddInteger, AddTable, CellName, Clear, CreateObject, EraseObject, Instr, Key, KeyKind, KeyText,
    Name, Update, Value,
};
use sync_index::{Index, shared_spot};

/// An instruction by what it is about: a table, or an object of a table with a number, a text or the first and the last byte
/// of a uuid as its key.
#[derive(Clone, Copy)]
enum About {
    Table(&'static str),
    Creating(&'static str, i64),
    Updating(&'static str, i64),
    Adding(&'static str, i64),
    Clearing(&'static str, &'static str),
    Erasing(&'static str, u8, u8),
}

fn name(text: &str) -> Option<Name> {
    Name::new(text).ok()
}

fn cell(table: &str, key: Key) -> Option<CellName> {
    Some(CellName {
        table: name(table)?,
        key,
        column: name("n")?,
    })
}

fn update(table: &str, key: i64) -> Option<Instr> {
    Some(Instr::Update(Update {
        cell: cell(table, Key::Int(key))?,
        value: Value::Int(3),
    }))
}

fn add(table: &str, key: i64) -> Option<Instr> {
    Some(Instr::AddInteger(AddInteger {
        cell: cell(table, Key::Int(key))?,
        amount: 1,
    }))
}

fn create(table: &str, key: i64) -> Option<Instr> {
    Some(Instr::CreateObject(CreateObject {
        table: name(table)?,
        key: Key::Int(key),
    }))
}

fn clear(alloc: Global, table: &str, key: &str) -> Option<Instr> {
    let key = Key::Text(KeyText::new(alloc, key).ok()?);
    Some(Instr::Clear(Clear {
        cell: cell(table, key)?,
    }))
}

fn erase(table: &str, first: u8, last: u8) -> Option<Instr> {
    let mut id = [0; 16];
    id[0] = first;
    id[15] = last;
    Some(Instr::EraseObject(EraseObject {
        table: name(table)?,
        key: Key::Uuid(id),
    }))
}

fn add_table(table: &str) -> Option<Instr> {
    Some(Instr::AddTable(AddTable {
        table: name(table)?,
        key: KeyKind::Int,
    }))
}

fn instr(alloc: Global, about: About) -> Option<Instr> {
    match about {
        Table(name) => add_table(name),
        Creating(table, key) => create(table, key),
        Updating(table, key) => update(table, key),
        Adding(table, key) => add(table, key),
        Clearing(table, key) => clear(alloc, table, key),
        Erasing(table, first, last) => erase(table, first, last),
    }
}

fn put<T: Drop>(list: &mut Vec<T>, item: T) -> bool {
    list.push(item).is_ok()
}

fn list_of(alloc: Global, listed: &[About]) -> Option<Vec<Instr>> {
    let mut list = Vec::new(alloc);
    for about in listed {
        let instr = instr(alloc, *about)?;
        if !put(&mut list, instr) {
            return None;
        }
    }
    Some(list)
}

fn index_of(alloc: Global, listed: &[About]) -> Option<Index> {
    let list = list_of(alloc, listed)?;
    Index::of(alloc, &list).ok()
}

/// Whether an index says so of each instruction.
fn says_of_each(index: &Index, instrs: &[Instr], touches: bool) -> bool {
    for instr in instrs {
        if index.may_touch(instr) != touches {
            return false;
        }
    }
    true
}

/// Whether an index of the list says so of an instruction.
fn says(alloc: Global, index: &Index, about: About, touches: bool) -> bool {
    match list_of(alloc, &[about]) {
        Some(list) => list.len() == 1 && says_of_each(index, &list, touches),
        None => false,
    }
}

/// The place of the first instruction of which an index of the list doesn't say what stands beside it, or how many there are.
fn first_wrong(alloc: Global, listed: &[About], asked: &[(About, bool)]) -> Option<usize> {
    let index = index_of(alloc, listed)?;
    for (place, (about, touches)) in asked.iter().enumerate() {
        if !says(alloc, &index, *about, *touches) {
            return Some(place);
        }
    }
    Some(asked.len())
}

/// What is listed, and of which instructions an index says that they may touch it.
const TOUCHED: [(&[About], &[(About, bool)]); 5] = [
    // An update is touched by its object alone.
    (
        &[Updating("t", 1)],
        &[
            (Creating("t", 2), false),
            (Adding("t", 1), true),
            (Adding("u", 1), false),
            (Table("t"), false),
        ],
    ),
    // Objects of many tables.
    (
        &[
            Creating("t", 1),
            Updating("u", 2),
            Adding("t", 3),
            Clearing("t", "k"),
        ],
        &[
            (Updating("t", 1), true),
            (Updating("t", 2), false),
            (Updating("t", 3), true),
            (Updating("u", 1), false),
            (Updating("u", 2), true),
            (Clearing("t", "k"), true),
            (Clearing("t", ""), false),
        ],
    ),
    // Keys of one last byte are told apart.
    (
        &[Erasing("t", 1, 7), Creating("t", 1), Clearing("t", "ak")],
        &[
            (Erasing("t", 1, 7), true),
            (Erasing("t", 2, 7), false),
            (Erasing("t", 1, 8), false),
            (Creating("t", 257), false),
            (Clearing("t", "bk"), false),
        ],
    ),
    // Instructions of the schema touch each other.
    (
        &[Table("t")],
        &[(Table("u"), true), (Creating("t", 1), false)],
    ),
    (&[], &[(Table("t"), false), (Creating("t", 1), false)]),
];

pub(crate) fn an_index_says_what_may_touch_its_list(alloc: Global) -> bool {
    for (listed, asked) in TOUCHED.iter() {
        if first_wrong(alloc, *listed, *asked) != Some(asked.len()) {
            return false;
        }
    }
    true
}

/// An index of the first list says so of the spot of another.
fn passes(alloc: Global, index: &Index, list: &[About], passes: bool) -> bool {
    match list_of(alloc, list) {
        Some(list) => index.passes_over(shared_spot(&list)) == passes,
        None => false,
    }
}

/// The place of the first list of which an index of another doesn't say whether it passes it over by its spot alone, or how many
/// there are.
fn first_not_told(alloc: Global, listed: &[About], asked: &[(&[About], bool)]) -> Option<usize> {
    let index = index_of(alloc, listed)?;
    for (place, (list, wanted)) in asked.iter().enumerate() {
        if !passes(alloc, &index, *list, *wanted) {
            return Some(place);
        }
    }
    Some(asked.len())
}

/// Lists, and whether an index of an update of the object 1 and a clear of a text key passes them over.
const PASSED: [(&[About], bool); 8] = [
    (&[Updating("t", 2)], true),
    (
        &[Adding("u", 258), Creating("t", 2), Erasing("t", 1, 2)],
        true,
    ),
    (&[Clearing("t", "b")], true),
    (&[Updating("t", 257)], false),
    (&[Clearing("t", "bk")], false),
    (&[Updating("t", 2), Updating("t", 3)], false),
    (&[Updating("t", 2), Table("t")], false),
    (&[], false),
];

pub(crate) fn lists_at_unmarked_spots_are_passed_over(alloc: Global) -> bool {
    let listed = [Updating("t", 1), Clearing("t", "ak")];
    first_not_told(alloc, &listed, &PASSED) == Some(PASSED.len())
}
