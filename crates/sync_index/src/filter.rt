ghost use Rattle.std.specs.Prelude.{◌≡◌, ℕ, ◌||◌, ◌==◌, false};
ghost use Rattle.sync_data.specs.declared.key.Key.{Key};
ghost use Rattle.sync_index.specs.Filters.{is_marked, spot_of, may_hold};

use super::spot::spot_of;
use std::marker::Model;
use sync_base::Key;

/// One mark for each byte. It tells of most keys that aren't in a set that they aren't: where the spot of a key isn't
/// marked, no key of the set has that spot.
#[derive(Drop)]
pub(crate) struct Filter {
    marks: [bool; 256],
}

impl Model for Filter {
    ghost use Rattle.std.specs.Prelude.{Bool, List};

    ghost Value = { List Bool };

    ghost view = { λ a. a.marks };
}

impl Filter {
    /// Nothing is marked.
    pub(crate) fn new() -> Filter
        ensures { (key : Key) → may_hold result key ≡ false }
    {
        Filter {
            marks: [false; 256],
        }
    }

    /// Whether the key's spot is marked.
    #[inline(always)]
    pub(crate) fn may_hold(&self, key: &Key) -> bool
        ensures { result ≡ may_hold self.now key.now }
    {
        self.is_marked(spot_of(key))
    }

    /// Whether the spot is marked.
    #[inline(always)]
    pub(crate) fn is_marked(&self, spot: u8) -> bool
        ensures { result ≡ is_marked self.now spot }
    {
        self.marks[spot as usize]
    }

    /// Marks the key's spot.
    pub(crate) fn mark(&mut self, key: &Key)
        ensures { (other : Key) → may_hold self.new other ≡ ((spot_of other == spot_of key.now) || may_hold self.old other) }
    {
        self.marks[spot_of(key) as usize] = true;
    }
}
