ghost use Rattle.std.specs.Prelude.{◌≡◌, ◌≤◌};

use std::marker::Model;
use sync_data::Ident;

/// A client asks that an ident is retired, whose changes it makes anew under its own. Both idents are at least 1.
#[derive(Drop)]
pub struct Retire {
    ident: Ident,
    by: Ident,
}

impl Model for Retire {
    ghost use Rattle.sync_messages.specs.Parts.{RetireParts, IsRetire};

    ghost Value = { RetireParts };

    ghost view = { λ a. record { ident = a.ident; by = a.by } };

    ghost invariant = { λ a. IsRetire (record { ident = a.ident; by = a.by }) };
}

impl Retire {
    /// That ident is to be retired for the client with the other.
    pub fn new(ident: Ident, by: Ident) -> Retire
        requires named { 1 ≤ ident }
        requires by_named { 1 ≤ by }
        ensures { result ≡ record { ident = ident; by = by } }
    {
        Retire { ident, by }
    }

    /// The ident that is to be retired.
    pub fn ident(&self) -> Ident
        ensures value { result ≡ self.now.ident }
        ensures named { 1 ≤ result }
    {
        self.ident
    }

    /// The client that asks.
    pub fn by(&self) -> Ident
        ensures value { result ≡ self.now.by }
        ensures named { 1 ≤ result }
    {
        self.by
    }

    /// An equal one.
    pub fn copy(&self) -> Retire
        ensures { result ≡ self.now }
    {
        Retire {
            ident: self.ident,
            by: self.by,
        }
    }
}
