ghost use Rattle.std.specs.Prelude.{◌≡◌, ◌+◌, ◌<◌, ◌^◌};
ghost use Rattle.sync_value_text.specs.Forms.{Decides};
ghost use Rattle.sync_value_text.specs.Columns.{plain_kind as plain_kind_of, kind_form, shape_of_word, shape_form, field_count as count_of_fields, column_beside as beside_form, column_form};
ghost use Rattle.serde_json.specs.View.{view};

use super::fields::{exactly, flag_field, name_field, text_field};
use super::refusal::TextRefusal;
use serde_json::Value as Json;
use sync_data::{Column, Kind, Shape};

/// The column that a JSON value stands for: the object of `kind`, `nullable`, `shape` and, exactly where the
/// kind is `"Link"`, `target`. `BadValue` exactly where it is none. It takes no memory.
pub fn column_of(json: &Json) -> Result<Column, TextRefusal>
    ensures { Decides result (column_form (view json.now)) }
{
    column_beside(json, 0)
}

/// The column in an object that has so many other fields beside those of the column. It takes no memory.
#[tactic(auto, unfolding(crate::specs::Columns::column_beside))]
pub fn column_beside(json: &Json, others: usize) -> Result<Column, TextRefusal>
    requires { others + 4 < 2 ^ 64 }
    ensures { Decides result (beside_form others (view json.now)) }
{
    let kind = kind_field(json)?;
    let nullable = flag_field(json, "nullable")?;
    let shape = shape_field(json)?;
    exactly(json, others + field_count(&kind))?;
    Ok(Column {
        kind,
        nullable,
        shape,
    })
}

fn field_count(kind: &Kind) -> usize
    ensures count { result ≡ count_of_fields kind.now }
    ensures small { result < 5 }
{
    match kind {
        Kind::Link(_) => 4,
        _ => 3,
    }
}

#[tactic(auto, unfolding(crate::specs::Columns::kind_form))]
fn kind_field(json: &Json) -> Result<Kind, TextRefusal>
    ensures { Decides result (kind_form (view json.now)) }
{
    let word = text_field(json, "kind")?;
    if word == "Link" {
        return Ok(Kind::Link(name_field(json, "target")?));
    }
    plain_kind(word).ok_or(TextRefusal::BadValue)
}

#[tactic(auto, unfolding(crate::specs::Columns::plain_kind))]
fn plain_kind(word: &str) -> Option<Kind>
    ensures { result ≡ plain_kind_of word.now }
{
    match word {
        "Int" => Some(Kind::Int),
        "Bool" => Some(Kind::Bool),
        "Text" => Some(Kind::Text),
        "Bytes" => Some(Kind::Bytes),
        "Time" => Some(Kind::Time),
        "Uuid" => Some(Kind::Uuid),
        _ => None,
    }
}

#[tactic(auto, unfolding(crate::specs::Columns::shape_form))]
fn shape_field(json: &Json) -> Result<Shape, TextRefusal>
    ensures { Decides result (shape_form (view json.now)) }
{
    let word = text_field(json, "shape")?;
    shape_of(word).ok_or(TextRefusal::BadValue)
}

#[tactic(auto, unfolding(crate::specs::Columns::shape_of_word))]
fn shape_of(word: &str) -> Option<Shape>
    ensures { result ≡ shape_of_word word.now }
{
    match word {
        "One" => Some(Shape::One),
        "List" => Some(Shape::List),
        "Set" => Some(Shape::Set),
        "Dict" => Some(Shape::Dict),
        _ => None,
    }
}
