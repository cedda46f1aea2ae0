ghost use Rattle.std.specs.Prelude.{◌≡◌};
ghost use Rattle.sync_base.specs.States.{is_of_kind, is_sound_column};

use sync_base::{Column, Key, KeyKind, Kind, Shape};

/// Whether a key is of that kind.
pub fn is_of_kind(kind: KeyKind, key: &Key) -> bool
    ensures { result ≡ is_of_kind kind key.now }
{
    match (kind, key) {
        (KeyKind::Int, Key::Int(_)) => true,
        (KeyKind::Text, Key::Text(_)) => true,
        (KeyKind::Uuid, Key::Uuid(_)) => true,
        _ => false,
    }
}

/// Whether a link is nullable just where it is single.
pub fn is_sound(column: &Column) -> bool
    ensures { result ≡ is_sound_column column.now }
{
    match (&column.kind, column.shape) {
        (Kind::Link(_), Shape::One) => column.nullable,
        (Kind::Link(_), _) => !column.nullable,
        _ => true,
    }
}
