ghost use Rattle.std.specs.Prelude.{◌≡◌, ◌≤◌};

use crate::life::Life;
use std::marker::Model;
use sync_data::Ident;

/// Entries of an ident, at least 1, from here on are transactions of this life of its client.
#[derive(Clone, Copy)]
pub struct Numbers {
    ident: Ident,
    life: Life,
}

impl Model for Numbers {
    ghost use Rattle.life_bytes.specs.Parts.{NumbersParts, IsNumbers};

    ghost Value = { NumbersParts };

    ghost view = { λ a. record { ident = a.ident; life = a.life } };

    ghost invariant = { λ a. IsNumbers (record { ident = a.ident; life = a.life }) };

    ghost inverse = { λ numbers. record { ident = numbers.ident; life = numbers.life } };
}

impl Numbers {
    /// Entries of that ident are of that life.
    pub fn new(ident: Ident, life: Life) -> Numbers
        requires { 1 ≤ ident }
        ensures { result ≡ record { ident = ident; life = life } }
    {
        Numbers { ident, life }
    }

    /// The client's ident.
    pub fn ident(&self) -> Ident
        ensures value { result ≡ self.now.ident }
        ensures named { 1 ≤ result }
    {
        self.ident
    }

    /// The life of its client.
    pub fn life(&self) -> Life
        ensures { result ≡ self.now.life }
    {
        self.life
    }
}
