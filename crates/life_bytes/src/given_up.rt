ghost use Rattle.std.specs.Prelude.{◌≡◌, ◌≤◌, length};
ghost use Rattle.life_bytes.specs.Parts.{most_lives};

use std::marker::Model;
use sync_data::Ident;

/// The answer to a GiveUp: the heir's ident, at least 1, and for each life that it asked for, at most 65,536, up to which
/// number the history has its transactions.
#[derive(Drop)]
pub struct GivenUp {
    by: Ident,
    numbers: Vec<u32>,
}

impl Model for GivenUp {
    ghost use Rattle.life_bytes.specs.Parts.{GivenUpParts, IsGivenUp};

    ghost Value = { GivenUpParts };

    ghost view = { λ a. record { by = a.by; numbers = a.numbers.items } };

    ghost invariant = { λ a. IsGivenUp (record { by = a.by; numbers = a.numbers.items }) };
}

impl GivenUp {
    /// These numbers for that heir. It takes no memory.
    pub fn new(by: Ident, numbers: Vec<u32>) -> GivenUp
        requires named { 1 ≤ by }
        requires few { length numbers.items ≤ most_lives }
        ensures { result ≡ record { by = by; numbers = numbers.items } }
    {
        GivenUp { by, numbers }
    }

    /// The heir.
    pub fn by(&self) -> Ident
        ensures value { result ≡ self.now.by }
        ensures named { 1 ≤ result }
    {
        self.by
    }

    /// A number for each of the lives, in their order.
    pub fn numbers(&self) -> &[u32]
        ensures value { result.now ≡ self.now.numbers }
        ensures few { length result.now ≤ most_lives }
    {
        self.numbers.as_slice()
    }
}
