ghost use Rattle.std.specs.Prelude.{◌≡◌, ◌==◌, IsTrue};
ghost use Rattle.std.specs.Ordering.{eq_by_cmp};
ghost use Rattle.sync_data.specs.Orders.{name_cmp, value_cmp};
ghost use Rattle.sync_base.specs.Effects.{path_of, ObjectName};
ghost use Rattle.sync_base.specs.States.{object_cmp, key_rank_of, shape_rank};
ghost use Rattle.sync_base.specs.Merged.{path_cmp, same_column, kind_rank, target_of};

use sync_data::{CellName, Column, Key, KeyKind, KeyText, Kind, Name, Shape, Value};

/// Whether two names are of one cell.
#[tactic(auto, using(crate::specs::Lemmas::Rows::one_path))]
pub fn same_cell(a: &CellName, b: &CellName) -> bool
    ensures test { result ≡ eq_by_cmp path_cmp (path_of a.now) (path_of b.now) }
    ensures same { IsTrue result → path_of a.now ≡ path_of b.now }
{
    a.table
        .cmp(&b.table)
        .then(a.key.cmp(&b.key))
        .then(a.column.cmp(&b.column))
        .is_eq()
}

/// Whether two names are of one object.
#[tactic(auto, using(crate::specs::Lemmas::Rows::one_object))]
pub fn same_object(table: &Name, key: &Key, other_table: &Name, other_key: &Key) -> bool
    ensures test { result ≡ eq_by_cmp object_cmp (table.now, key.now) (other_table.now, other_key.now) }
    ensures same { IsTrue result → ◌≡◌ {A = ObjectName} (table.now, key.now) (other_table.now, other_key.now) }
{
    table.cmp(other_table).then(key.cmp(other_key)).is_eq()
}

/// Whether two names are one.
#[tactic(auto, using(crate::specs::Lemmas::Rows::one_name))]
pub fn same_name(a: &Name, b: &Name) -> bool
    ensures test { result ≡ eq_by_cmp name_cmp a.now b.now }
    ensures same { IsTrue result → a.now ≡ b.now }
{
    a.cmp(b).is_eq()
}

/// Whether two text keys are one.
#[tactic(auto, using(crate::specs::Lemmas::Rows::one_name))]
pub fn same_text_key(a: &KeyText, b: &KeyText) -> bool
    ensures test { result ≡ eq_by_cmp name_cmp a.now b.now }
    ensures same { IsTrue result → a.now ≡ b.now }
{
    a.cmp(b).is_eq()
}

/// Whether two values are one.
pub fn same_value(a: &Value, b: &Value) -> bool
    ensures { result ≡ eq_by_cmp value_cmp a.now b.now }
{
    a.cmp(b).is_eq()
}

/// Whether two kinds of keys are one.
pub fn same_key_kind(a: KeyKind, b: KeyKind) -> bool
    ensures { result ≡ (key_rank_of a == key_rank_of b) }
{
    key_rank(a) == key_rank(b)
}

fn key_rank(kind: KeyKind) -> u8
    ensures { result ≡ key_rank_of kind }
{
    match kind {
        KeyKind::Int => 0,
        KeyKind::Text => 1,
        KeyKind::Uuid => 2,
    }
}

fn kind_number(kind: &Kind) -> u8
    ensures { result ≡ kind_rank kind.now }
{
    match kind {
        Kind::Int => 0,
        Kind::Bool => 1,
        Kind::Text => 2,
        Kind::Bytes => 3,
        Kind::Time => 4,
        Kind::Uuid => 5,
        Kind::Link(_) => 6,
    }
}

fn shape_number(shape: Shape) -> u8
    ensures { result ≡ shape_rank shape }
{
    match shape {
        Shape::One => 0,
        Shape::List => 1,
        Shape::Set => 2,
        Shape::Dict => 3,
    }
}

fn same_target(a: &Kind, b: &Kind) -> bool
    ensures { kind_rank a.now ≡ kind_rank b.now → result ≡ eq_by_cmp name_cmp (target_of a.now) (target_of b.now) }
{
    match (a, b) {
        (Kind::Link(a), Kind::Link(b)) => same_name(a, b),
        _ => true,
    }
}

/// Whether two columns are defined alike.
pub fn same_columns(a: &Column, b: &Column) -> bool
    ensures { result ≡ same_column a.now b.now }
{
    let kinds = kind_number(&a.kind) == kind_number(&b.kind);
    let targets = same_target(&a.kind, &b.kind);
    let nullable = a.nullable == b.nullable;
    let shapes = shape_number(a.shape) == shape_number(b.shape);
    kinds & targets & nullable & shapes
}
