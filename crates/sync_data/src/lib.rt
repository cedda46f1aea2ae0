//! The plain data of the merge core: names, keys, values, columns, instructions, changesets and their orders.
#![tactic(auto)]

mod blob;
mod changeset;
mod column;
mod entry;
mod equality;
mod instr;
mod key;
mod key_text;
mod memory;
mod name;
mod payload;
mod places;
mod text;
mod time;
mod value;

pub use blob::Blob;
pub use changeset::{Changeset, MOST_INSTRS, MOST_PAYLOAD, TooLarge};
pub use column::{Column, Kind, Shape};
pub use entry::{Entry, Ident, Stamp};
pub use equality::equality_is_exact;
pub use instr::{
    AddColumn, AddInteger, AddTable, CellName, Clear, CreateObject, DictUpdate, EraseObject, Instr,
    ListErase, ListInsert, ListUpdate, SetErase, SetInsert, Update,
};
pub use key::{Id, Key, KeyKind};
pub use key_text::{KeyRefusal, KeyText, LONGEST_KEY};
pub use memory::{Listed, NoMemory};
pub use name::{LONGEST_NAME, Name, NameRefusal};
pub use places::{BadPlace, Between, Inside};
pub use text::Text;
pub use time::{BadTime, Time};
pub use value::Value;
