ghost use Rattle.std.specs.Prelude.{◌≡◌, length, nat_eq};
ghost use Rattle.std.specs.Cmp.{partial_equiv_from_equiv};
ghost use Rattle.std.specs.Cmp.Lexicographic.{pointwise, nat_list_eq_equiv};

use std::marker::Model;
use sync_data::Id;

/// A life: 16 bytes that a host draws anew for each opening of a file that writes. Contracts see the bytes.
#[derive(Clone, Copy)]
pub struct Life {
    bytes: Id,
}

impl Model for Life {
    ghost use Rattle.std.specs.Prelude.{ℕ, List};

    ghost Value = { List ℕ };

    ghost view = { λ a. a.bytes };

    ghost inverse = { λ bytes. record { bytes = bytes } };
}

impl Life {
    /// The life of those bytes.
    pub fn new(bytes: Id) -> Life
        ensures { result ≡ bytes }
    {
        Life { bytes }
    }

    /// Its bytes.
    pub fn bytes(&self) -> Id
        ensures value { result ≡ self.now }
        ensures sixteen { length self.now ≡ 16 }
    {
        self.bytes
    }
}

impl PartialEq for Life {
    ghost eq = { pointwise nat_eq };

    ghost laws = { partial_equiv_from_equiv nat_list_eq_equiv };

    fn eq(&self, other: &Life) -> bool {
        self.bytes.as_slice() == other.bytes.as_slice()
    }
}

impl Eq for Life {
    ghost laws = { nat_list_eq_equiv };
}
