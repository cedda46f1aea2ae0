ghost use Rattle.std.specs.Prelude.{◌≡◌};
ghost use Rattle.sync_app.specs.Wants.{is_wanted};

use sync_base::Shape;

/// The shapes of a column that an instruction may change.
#[derive(Clone, Copy)]
pub(crate) enum Wanted {
    One,
    List,
    Set,
    Dict,
    Collection,
}

impl Wanted {
    /// Whether the shape is one of these.
    pub(crate) fn is(self, shape: Shape) -> bool
        ensures { result ≡ is_wanted self shape }
    {
        match (self, shape) {
            (Wanted::One, Shape::One) => true,
            (Wanted::List, Shape::List) => true,
            (Wanted::Set, Shape::Set) => true,
            (Wanted::Dict, Shape::Dict) => true,
            (Wanted::Collection, Shape::One) => false,
            (Wanted::Collection, _) => true,
            _ => false,
        }
    }
}
