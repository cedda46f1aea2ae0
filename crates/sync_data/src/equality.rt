ghost use Rattle.std.specs.Prelude.{◌≡◌, ◌↔◌, true};
ghost use Rattle.std.specs.Cmp.{partial_equiv_from_equiv};
ghost use Rattle.sync_data.specs.declared.instr.Instr.{Instr};
ghost use Rattle.sync_data.specs.Payload.{Changes};
ghost use Rattle.sync_data.specs.Equality.{instr_eq, instr_equivalence, changes_eq, changes_equivalence, cell_eq, spot_eq, binding_eq, column_eq, key_kind_number, kind_number, kind_target, shape_number, name_eq};

use super::changeset::Changeset;
use super::column::{Column, Kind, Shape};
use super::instr::{CellName, Instr};
use super::key::KeyKind;
use super::places::{Between, Inside};
use super::value::Value;

impl PartialEq for Instr {
    ghost eq = { instr_eq };

    ghost laws = { partial_equiv_from_equiv instr_equivalence };

    fn eq(&self, other: &Instr) -> bool {
        match (self, other) {
            (Instr::AddTable(a), Instr::AddTable(b)) => {
                (a.table == b.table) & (key_kind(a.key) == key_kind(b.key))
            }
            (Instr::AddColumn(a), Instr::AddColumn(b)) => {
                (a.table == b.table) & (a.column == b.column) & same_column(&a.def, &b.def)
            }
            (Instr::CreateObject(a), Instr::CreateObject(b)) => {
                (a.table == b.table) & (a.key == b.key)
            }
            (Instr::EraseObject(a), Instr::EraseObject(b)) => {
                (a.table == b.table) & (a.key == b.key)
            }
            (Instr::Update(a), Instr::Update(b)) => {
                same_cell(&a.cell, &b.cell) & (a.value == b.value)
            }
            (Instr::AddInteger(a), Instr::AddInteger(b)) => {
                same_cell(&a.cell, &b.cell) & (a.amount == b.amount)
            }
            (Instr::ListUpdate(a), Instr::ListUpdate(b)) => {
                same_cell(&a.cell, &b.cell) & same_element(a.spot, b.spot) & (a.value == b.value)
            }
            (Instr::ListInsert(a), Instr::ListInsert(b)) => {
                same_cell(&a.cell, &b.cell) & same_gap(a.spot, b.spot) & (a.value == b.value)
            }
            (Instr::ListErase(a), Instr::ListErase(b)) => {
                same_cell(&a.cell, &b.cell) & same_element(a.spot, b.spot)
            }
            (Instr::SetInsert(a), Instr::SetInsert(b)) => {
                same_cell(&a.cell, &b.cell) & (a.value == b.value)
            }
            (Instr::SetErase(a), Instr::SetErase(b)) => {
                same_cell(&a.cell, &b.cell) & (a.value == b.value)
            }
            (Instr::DictUpdate(a), Instr::DictUpdate(b)) => {
                same_cell(&a.cell, &b.cell) & (a.at == b.at) & same_binding(&a.value, &b.value)
            }
            (Instr::Clear(a), Instr::Clear(b)) => same_cell(&a.cell, &b.cell),
            _ => false,
        }
    }
}

impl Eq for Instr {
    ghost laws = { instr_equivalence };
}

impl PartialEq for Changeset {
    ghost eq = { changes_eq };

    ghost laws = { partial_equiv_from_equiv changes_equivalence };

    fn eq(&self, other: &Changeset) -> bool {
        (self.ms() == other.ms()) & (self.instrs() == other.instrs())
    }
}

impl Eq for Changeset {
    ghost laws = { changes_equivalence };
}

/// `==` of instructions and of changesets tells whether they are one.
pub fn equality_is_exact()
    ensures instrs { (a b : Instr) → (instr_eq a b ≡ true) ↔ (a ≡ b) }
    ensures changesets { (a b : Changes) → (changes_eq a b ≡ true) ↔ (a ≡ b) }
{}

fn same_cell(a: &CellName, b: &CellName) -> bool
    ensures { result ≡ cell_eq a.now b.now }
{
    (a.table == b.table) & (a.key == b.key) & (a.column == b.column)
}

fn same_element(a: Inside, b: Inside) -> bool
    ensures { result ≡ spot_eq a b }
{
    (a.place() == b.place()) & (a.prior() == b.prior())
}

fn same_gap(a: Between, b: Between) -> bool
    ensures { result ≡ spot_eq a b }
{
    (a.place() == b.place()) & (a.prior() == b.prior())
}

fn same_binding(a: &Option<Value>, b: &Option<Value>) -> bool
    ensures { result ≡ binding_eq a.now b.now }
{
    match (a, b) {
        (Some(a), Some(b)) => a == b,
        (None, None) => true,
        _ => false,
    }
}

fn key_kind(kind: KeyKind) -> u8
    ensures { result ≡ key_kind_number kind }
{
    match kind {
        KeyKind::Int => 0,
        KeyKind::Text => 1,
        KeyKind::Uuid => 2,
    }
}

fn kind(kind: &Kind) -> u8
    ensures { result ≡ kind_number kind.now }
{
    match kind {
        Kind::Int => 0,
        Kind::Bool => 1,
        Kind::Text => 2,
        Kind::Bytes => 3,
        Kind::Time => 4,
        Kind::Uuid => 5,
        Kind::Link(_) => 6,
    }
}

fn shape(shape: Shape) -> u8
    ensures { result ≡ shape_number shape }
{
    match shape {
        Shape::One => 0,
        Shape::List => 1,
        Shape::Set => 2,
        Shape::Dict => 3,
    }
}

fn same_target(a: &Kind, b: &Kind) -> bool
    ensures { kind_number a.now ≡ kind_number b.now → result ≡ name_eq (kind_target a.now) (kind_target b.now) }
{
    match (a, b) {
        (Kind::Link(a), Kind::Link(b)) => a == b,
        _ => true,
    }
}

fn same_column(a: &Column, b: &Column) -> bool
    ensures { result ≡ column_eq a.now b.now }
{
    let kinds = kind(&a.kind) == kind(&b.kind);
    let targets = same_target(&a.kind, &b.kind);
    let nullable = a.nullable == b.nullable;
    let shapes = shape(a.shape) == shape(b.shape);
    kinds & targets & nullable & shapes
}
