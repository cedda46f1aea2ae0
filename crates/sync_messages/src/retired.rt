ghost use Rattle.std.specs.Prelude.{◌≡◌, ◌≤◌};

use std::marker::Model;
use sync_data::Ident;

/// An ident is retired for a client, and that many of its changes are in the history for good. Both idents are at
/// least 1.
#[derive(Drop)]
pub struct Retired {
    ident: Ident,
    by: Ident,
    number: u32,
}

impl Model for Retired {
    ghost use Rattle.sync_messages.specs.Parts.{RetiredParts, IsRetired};

    ghost Value = { RetiredParts };

    ghost view = { λ a. record { ident = a.ident; by = a.by; number = a.number } };

    ghost invariant = { λ a. IsRetired (record { ident = a.ident; by = a.by; number = a.number }) };
}

impl Retired {
    /// That ident is retired for the client with the other, with that number of its last change in the history.
    pub fn new(ident: Ident, by: Ident, number: u32) -> Retired
        requires named { 1 ≤ ident }
        requires by_named { 1 ≤ by }
        ensures { result ≡ record { ident = ident; by = by; number = number } }
    {
        Retired { ident, by, number }
    }

    /// The retired ident.
    pub fn ident(&self) -> Ident
        ensures value { result ≡ self.now.ident }
        ensures named { 1 ≤ result }
    {
        self.ident
    }

    /// The client for which it was retired.
    pub fn by(&self) -> Ident
        ensures value { result ≡ self.now.by }
        ensures named { 1 ≤ result }
    {
        self.by
    }

    /// The number of its last change that is in the history, or 0.
    pub fn number(&self) -> u32
        ensures { result ≡ self.now.number }
    {
        self.number
    }

    /// An equal one.
    pub fn copy(&self) -> Retired
        ensures { result ≡ self.now }
    {
        Retired {
            ident: self.ident,
            by: self.by,
            number: self.number,
        }
    }
}
