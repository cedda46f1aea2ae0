//! Definitions of state, instruction and merge, with their laws, and the plain types.
#![tactic(auto)]

mod act;
mod answers;
mod cell;
mod laws;
mod meets;
mod same;
mod sides;

pub use act::Act;
pub use answers::{Break, Mismatch, Outcome};
pub use cell::cell_of;
pub use laws::{
    both_orders_agree, breaks_tell, definitions_differ, effects_tell, frames_hold, objects_stay,
    sizes_fit, states_stay, table_is_mirrored, tests_tell,
};
pub use meets::{Meets, keep_both, keep_left, keep_neither, keep_right};
pub use same::{
    same_cell, same_columns, same_key_kind, same_name, same_object, same_text_key, same_value,
};
pub use sides::{erases, is_erased, later_wins, left_wins, neither_wins, right_wins};
pub use sync_data::{
    AddColumn, AddInteger, AddTable, BadPlace, BadTime, Between, Blob, CellName, Changeset, Clear,
    Column, CreateObject, DictUpdate, Entry, EraseObject, Id, Ident, Inside, Instr, Key, KeyKind,
    KeyRefusal, KeyText, Kind, LONGEST_KEY, LONGEST_NAME, ListErase, ListInsert, ListUpdate,
    Listed, MOST_INSTRS, MOST_PAYLOAD, Name, NameRefusal, NoMemory, SetErase, SetInsert, Shape,
    Stamp, Text, Time, TooLarge, Update, Value,
};
