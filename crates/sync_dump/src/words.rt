ghost use Rattle.std.specs.Prelude.{◌≡◌, option_map};
ghost use Rattle.sync_value_text.specs.Printed.{kind_word as word_of_kind, shape_word as word_of_shape, target_name};
ghost use Rattle.sync_dump.specs.Dump.{key_word as word_of_key_kind};

use sync_base::{KeyKind, Kind, Name, Shape};

/// The word of a kind of keys.
pub(crate) fn key_word(kind: KeyKind) -> &'static str
    ensures { result.now ≡ word_of_key_kind kind }
{
    match kind {
        KeyKind::Int => "Int",
        KeyKind::Text => "Text",
        KeyKind::Uuid => "Uuid",
    }
}

/// The word of a kind.
pub(crate) fn kind_word(kind: &Kind) -> &'static str
    ensures { result.now ≡ word_of_kind kind.now }
{
    match kind {
        Kind::Int => "Int",
        Kind::Bool => "Bool",
        Kind::Text => "Text",
        Kind::Bytes => "Bytes",
        Kind::Time => "Time",
        Kind::Uuid => "Uuid",
        Kind::Link(_) => "Link",
    }
}

/// The word of a shape.
pub(crate) fn shape_word(shape: Shape) -> &'static str
    ensures { result.now ≡ word_of_shape shape }
{
    match shape {
        Shape::One => "One",
        Shape::List => "List",
        Shape::Set => "Set",
        Shape::Dict => "Dict",
    }
}

/// The target of a link.
pub(crate) fn target_of(kind: &Kind) -> Option<&Name>
    ensures { option_map (λ target. target.now) result ≡ target_name kind.now }
{
    match kind {
        Kind::Link(target) => Some(target),
        _ => None,
    }
}
