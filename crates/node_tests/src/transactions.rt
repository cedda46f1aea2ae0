//! Transactions that an application builds call by call.

use std::alloc::Global;
use sync_app::{Refusal, Transaction, dict_of, list_of, set_of, value_of};
use sync_base::{
    Break, CellName, Changeset, Column, Instr, Key, KeyKind, KeyText, Kind, Name, Shape, Value,
};
use sync_store::Store;

/// A call for note 1: on the list `tags`, the counter `count`, the set `marks` or the dictionary `ages`.
enum Call {
    AddTable,
    AddColumn(&'static str, Shape),
    Create,
    Erase,
    Set(i64),
    Add(i64),
    Insert(u32, i64),
    Push(i64),
    Replace(u32, i64),
    Remove(u32),
    Include(i64),
    Exclude(i64),
    Bind(&'static str, i64),
    Unbind(&'static str),
    ClearList,
    ClearCount,
}

/// Calls one after the other, and why those aren't taken that aren't.
const CALLS: [(Call, Result<(), Refusal>); 31] = [
    (Call::Create, Err(Refusal::Break(Break::NoTable))),
    (Call::AddTable, Ok(())),
    (Call::AddTable, Err(Refusal::Break(Break::TableExists))),
    (Call::AddColumn("tags", Shape::List), Ok(())),
    (Call::AddColumn("count", Shape::One), Ok(())),
    (Call::AddColumn("marks", Shape::Set), Ok(())),
    (Call::AddColumn("ages", Shape::Dict), Ok(())),
    (Call::Push(1), Err(Refusal::Break(Break::NoObject))),
    (Call::Create, Ok(())),
    (Call::Push(1), Ok(())),
    (Call::Push(3), Ok(())),
    (Call::Insert(1, 2), Ok(())),
    (
        Call::Insert(4, 9),
        Err(Refusal::OutOfRange {
            place: 4,
            length: 3,
        }),
    ),
    (
        Call::Remove(3),
        Err(Refusal::OutOfRange {
            place: 3,
            length: 3,
        }),
    ),
    (Call::Replace(2, 5), Ok(())),
    (Call::Remove(0), Ok(())),
    (
        Call::Remove(2),
        Err(Refusal::OutOfRange {
            place: 2,
            length: 2,
        }),
    ),
    (Call::Erase, Ok(())),
    (Call::Erase, Err(Refusal::Break(Break::NoObject))),
    (Call::Create, Ok(())),
    (
        Call::Replace(0, 1),
        Err(Refusal::OutOfRange {
            place: 0,
            length: 0,
        }),
    ),
    (Call::Push(4), Ok(())),
    (Call::ClearList, Ok(())),
    (
        Call::Remove(0),
        Err(Refusal::OutOfRange {
            place: 0,
            length: 0,
        }),
    ),
    (Call::Set(5), Ok(())),
    (Call::Add(2), Ok(())),
    (Call::ClearCount, Err(Refusal::Break(Break::WrongShape))),
    (Call::Include(1), Ok(())),
    (Call::Exclude(1), Ok(())),
    (Call::Bind("ann", 41), Ok(())),
    (Call::Unbind("bob"), Ok(())),
];

/// How many of the calls are taken.
const TAKEN: usize = 21;

/// What is read of the note once they have acted.
const READ: [(&str, Option<usize>); 5] = [
    ("count", Some(7)),
    ("tags", Some(0)),
    ("marks", Some(0)),
    ("ages", Some(1)),
    ("none", None),
];

fn name(text: &str) -> Option<Name> {
    Name::new(text).ok()
}

fn cell(column: &str) -> Option<CellName> {
    Some(CellName {
        table: name("notes")?,
        key: Key::Int(1),
        column: name(column)?,
    })
}

fn numbers(shape: Shape) -> Column {
    Column {
        kind: Kind::Int,
        nullable: false,
        shape,
    }
}

/// What a call answers; none where a name isn't made.
type Answer = Option<Result<(), Refusal>>;

/// What a call for the note itself answers.
fn answer_of_note(edits: &mut Transaction<'_>, call: &Call) -> Answer {
    let notes = name("notes")?;
    Some(match call {
        Call::AddTable => edits.add_table(notes, KeyKind::Int),
        Call::AddColumn(column, shape) => edits.add_column(notes, name(column)?, numbers(*shape)),
        Call::Create => edits.create(notes, Key::Int(1)),
        _ => edits.erase(notes, Key::Int(1)),
    })
}

/// What a call for its list answers.
fn answer_of_list(edits: &mut Transaction<'_>, call: &Call) -> Answer {
    let tags = cell("tags")?;
    Some(match call {
        Call::Insert(place, value) => edits.insert(tags, *place, Value::Int(*value)),
        Call::Push(value) => edits.push(tags, Value::Int(*value)),
        Call::Replace(place, value) => edits.replace(tags, *place, Value::Int(*value)),
        Call::Remove(place) => edits.remove(tags, *place),
        _ => edits.clear(tags),
    })
}

/// What a call for its number or its set answers.
fn answer_of_cell(edits: &mut Transaction<'_>, call: &Call) -> Answer {
    match call {
        Call::Set(value) => Some(edits.set(cell("count")?, Value::Int(*value))),
        Call::Add(amount) => Some(edits.add(cell("count")?, *amount)),
        Call::Include(value) => Some(edits.include(cell("marks")?, Value::Int(*value))),
        Call::Exclude(value) => Some(edits.exclude(cell("marks")?, Value::Int(*value))),
        _ => Some(edits.clear(cell("count")?)),
    }
}

/// What a call for its dictionary answers.
fn answer_of_dict(
    alloc: Global,
    edits: &mut Transaction<'_>,
    at: &str,
    value: Option<i64>,
) -> Answer {
    let ages = cell("ages")?;
    let at = KeyText::new(alloc, at).ok()?;
    Some(match value {
        Some(value) => edits.bind(ages, at, Value::Int(value)),
        None => edits.unbind(ages, at),
    })
}

fn answer(alloc: Global, edits: &mut Transaction<'_>, call: &Call) -> Answer {
    match call {
        Call::AddTable | Call::AddColumn(..) | Call::Create | Call::Erase => {
            answer_of_note(edits, call)
        }
        Call::Insert(..) | Call::Push(_) | Call::Replace(..) | Call::Remove(_) | Call::ClearList =>
            { answer_of_list(edits, call) }
        Call::Bind(at, value) => answer_of_dict(alloc, edits, at, Some(*value)),
        Call::Unbind(at) => answer_of_dict(alloc, edits, at, None),
        _ => answer_of_cell(edits, call),
    }
}

/// The instructions of the calls that are taken, where each answers what it must.
fn taken(alloc: Global, objects: &Store) -> Option<Vec<Instr>> {
    let mut edits = Transaction::new(alloc, objects);
    for (call, wanted) in CALLS.iter() {
        if answer(alloc, &mut edits, call)? != *wanted {
            return None;
        }
    }
    Some(edits.finish())
}

/// The number in a column of note 1, or how many elements, members or bindings there are.
fn read(objects: &Store, column: &str) -> Option<usize> {
    let cell = cell(column)?;
    if let Ok(Value::Int(number)) = value_of(objects, &cell) {
        return usize::try_from(*number).ok();
    }
    if let Ok(list) = list_of(objects, &cell) {
        return Some(list.len());
    }
    if let Ok(members) = set_of(objects, &cell) {
        return Some(members.len());
    }
    match dict_of(objects, &cell) {
        Ok(bindings) => Some(bindings.len()),
        Err(_) => None,
    }
}

fn is_read(objects: &Store) -> bool {
    for (column, wanted) in READ.iter() {
        if read(objects, column) != *wanted {
            return false;
        }
    }
    true
}

/// Whether the instructions are as many, and act on the store so.
fn act(store: &mut Store, instrs: Vec<Instr>) -> bool {
    let is_whole = instrs.len() == TAKEN;
    match Changeset::checked(0, instrs) {
        Ok(changes) => is_whole && store.apply_all(&changes).is_ok() && is_read(store),
        Err(_) => false,
    }
}

/// Each call sees the calls before it, and the instructions of those that are taken act.
pub(crate) fn calls_see_the_transaction_so_far(alloc: Global) -> bool {
    let Ok(mut store) = Store::new(alloc) else {
        return false;
    };
    match taken(alloc, &store) {
        Some(instrs) => act(&mut store, instrs),
        None => false,
    }
}

const BROKEN: Refusal = Refusal::Break(Break::NoObject);

const OUTSIDE: Refusal = Refusal::OutOfRange {
    place: 3,
    length: 2,
};

fn is_worded(alloc: Global, refusal: Refusal, want: &str) -> bool {
    match format!(in alloc; "{refusal}") {
        Ok(text) => text.as_str() == want,
        Err(_) => false,
    }
}

pub(crate) fn refusals_have_words(alloc: Global) -> bool {
    let broken = "it doesn't act on the objects with the transaction so far: NoObject";
    let outside = "place 3 lies outside the list, whose length is 2";
    is_worded(alloc, BROKEN, broken) && is_worded(alloc, OUTSIDE, outside)
}
