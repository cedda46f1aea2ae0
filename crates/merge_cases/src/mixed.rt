//! Drawn changesets of instructions of all forms over few objects, as a client could make them.

use std::alloc::Global;
use sync_base::{
    AddInteger, AddTable, Between, CellName, Changeset, Clear, CreateObject, DictUpdate,
    EraseObject, Inside, Instr, Key, KeyKind, KeyText, ListErase, ListInsert, ListUpdate, Name,
    SetErase, SetInsert, Update, Value,
};

/// So many objects are there at first.
const OBJECTS: u32 = 4;

/// An object as a client has it: whether it is there, and how long its lists are.
#[derive(Clone, Copy)]
struct Held {
    is_there: bool,
    letters: u32,
    links: u32,
}

const GONE: Held = Held {
    is_there: false,
    letters: 0,
    links: 0,
};

fn next(number: u32) -> u32 {
    number.wrapping_mul(1_664_525).wrapping_add(1_013_904_223)
}

fn name(text: &str) -> Option<Name> {
    Name::new(text).ok()
}

fn cell(key: u32, column: &str) -> Option<CellName> {
    Some(CellName {
        table: name("t")?,
        key: Key::Int(key as i64),
        column: name(column)?,
    })
}

fn value(number: u32) -> Value {
    Value::Int(((number >> 4) % 8) as i64)
}

/// A drawn instruction of the list in a cell, which has that length; and how long it is then.
fn of_a_list(number: u32, cell: CellName, length: u32) -> Option<(Instr, u32)> {
    let value = value(number);
    let form = if length == 0 { 2 } else { (number >> 8) % 5 };
    let drawn = next(number) >> 8;
    if form == 0 {
        let spot = Inside::new(drawn % length.max(1), length).ok()?;
        let erase = Instr::ListErase(ListErase { cell, spot });
        return Some((erase, length.saturating_sub(1)));
    }
    if form == 1 {
        let spot = Inside::new(drawn % length.max(1), length).ok()?;
        return Some((Instr::ListUpdate(ListUpdate { cell, spot, value }), length));
    }
    let longer = length.saturating_add(1);
    let spot = Between::new(drawn % longer.max(1), length).ok()?;
    let insert = Instr::ListInsert(ListInsert { cell, spot, value });
    Some((insert, longer))
}

/// A drawn instruction of a cell that is no list.
fn of_a_cell(alloc: Global, number: u32, key: u32) -> Option<Instr> {
    let value = value(number);
    let form = (number >> 8) % 20;
    if form < 6 {
        let cell = cell(key, "n")?;
        return Some(Instr::Update(Update { cell, value }));
    }
    if form < 11 {
        let cell = cell(key, "n")?;
        return Some(Instr::AddInteger(AddInteger { cell, amount: 3 }));
    }
    if form < 14 {
        let cell = cell(key, "u")?;
        return Some(Instr::SetInsert(SetInsert { cell, value }));
    }
    if form < 16 {
        let cell = cell(key, "u")?;
        return Some(Instr::SetErase(SetErase { cell, value }));
    }
    if form < 19 {
        let cell = cell(key, "d")?;
        let at = KeyText::new(alloc, if form < 18 { "a" } else { "b" }).ok()?;
        let value = Some(value);
        return Some(Instr::DictUpdate(DictUpdate { cell, at, value }));
    }
    let cell = cell(key, if number % 2 == 0 { "u" } else { "d" })?;
    Some(Instr::Clear(Clear { cell }))
}

/// A drawn instruction that more than one cell feels, or a whole list: and the object then.
fn of_an_object(number: u32, key: u32, held: Held) -> Option<(Instr, Held)> {
    let form = (number >> 8) % 8;
    if form < 3 {
        let erase = EraseObject {
            table: name("t")?,
            key: Key::Int(key as i64),
        };
        return Some((Instr::EraseObject(erase), GONE));
    }
    if form < 7 {
        let cell = cell(key, "m")?;
        return Some((Instr::Clear(Clear { cell }), Held { links: 0, ..held }));
    }
    let table = AddTable {
        table: name("o")?,
        key: KeyKind::Int,
    };
    Some((Instr::AddTable(table), held))
}

/// A drawn instruction of an object, and the object then.
fn drawn(alloc: Global, number: u32, key: u32, held: Held) -> Option<(Instr, Held)> {
    if !held.is_there {
        let create = CreateObject {
            table: name("t")?,
            key: Key::Int(key as i64),
        };
        let is_there = true;
        return Some((Instr::CreateObject(create), Held { is_there, ..held }));
    }
    let form = (number >> 8) % 100;
    let number = next(number);
    if form < 40 {
        let (instr, letters) = of_a_list(number, cell(key, "l")?, held.letters)?;
        return Some((instr, Held { letters, ..held }));
    }
    if form < 55 {
        let (instr, links) = of_a_list(number, cell(key, "m")?, held.links)?;
        return Some((instr, Held { links, ..held }));
    }
    if form < 97 {
        return Some((of_a_cell(alloc, number, key)?, held));
    }
    of_an_object(number, key, held)
}

/// A changeset of so many drawn instructions, one after another. Each object is there first, with a list of that length.
pub(crate) fn changeset(
    alloc: Global,
    seed: u32,
    ms: u64,
    count: u32,
    letters: u32,
) -> Option<Changeset> {
    let mut objects = objects(alloc, letters)?;
    let mut instrs = Vec::new(alloc);
    let mut number = next(next(seed));
    for _ in 0..count {
        number = next(number);
        let place = ((number >> 8) % OBJECTS) as usize;
        number = next(number);
        if place >= objects.len() {
            return None;
        }
        let (instr, held) = drawn(alloc, number, place as u32, objects[place])?;
        instrs.push(instr).ok()?;
        objects[place] = held;
        number = next(number);
    }
    Changeset::checked(ms, instrs).ok()
}

fn objects(alloc: Global, letters: u32) -> Option<Vec<Held>> {
    let mut objects = Vec::new(alloc);
    for _ in 0..OBJECTS {
        let held = Held {
            is_there: true,
            letters,
            links: 0,
        };
        objects.push(held).ok()?;
    }
    Some(objects)
}
