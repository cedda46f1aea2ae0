//! What is left where additions of tables and columns meet.
#![tactic(auto)]

use sync_base::{
    AddColumn, AddTable, Meets, Mismatch, Outcome, keep_both, keep_neither, same_columns,
    same_key_kind, same_name,
};

/// The rules of AddTable and AddColumn.
pub struct SchemaRules;

impl Meets<AddTable, AddTable> for SchemaRules {
    fn meet(left: AddTable, right: AddTable, _: bool) -> Result<Outcome, Mismatch> {
        if !same_name(&left.table, &right.table) {
            keep_both(left, right)
        } else if same_key_kind(left.key, right.key) {
            keep_neither()
        } else {
            Err(Mismatch::TablesDiffer)
        }
    }
}

impl Meets<AddColumn, AddColumn> for SchemaRules {
    fn meet(left: AddColumn, right: AddColumn, _: bool) -> Result<Outcome, Mismatch> {
        if !(same_name(&left.table, &right.table) & same_name(&left.column, &right.column)) {
            keep_both(left, right)
        } else if same_columns(&left.def, &right.def) {
            keep_neither()
        } else {
            Err(Mismatch::ColumnsDiffer)
        }
    }
}
