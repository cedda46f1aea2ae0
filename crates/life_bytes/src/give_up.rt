ghost use Rattle.std.specs.Prelude.{◌≡◌, ◌≤◌, length};
ghost use Rattle.life_bytes.specs.Parts.{most_uuids, most_lives};

use crate::life::Life;
use std::marker::Model;
use sync_data::{Id, Ident};

/// An heir gives up the clients whose transactions it saves: its ident, at least 1, their uuids, at most 4,096, and the
/// lives, at most 65,536, of which it asks up to which number the history has them.
#[derive(Drop)]
pub struct GiveUp {
    by: Ident,
    uuids: Vec<Id>,
    lives: Vec<Life>,
}

impl Model for GiveUp {
    ghost use Rattle.life_bytes.specs.Parts.{GiveUpParts, IsGiveUp};

    ghost Value = { GiveUpParts };

    ghost view = { λ a. record { by = a.by; uuids = a.uuids.items; lives = a.lives.items } };

    ghost invariant = { λ a. IsGiveUp (record { by = a.by; uuids = a.uuids.items; lives = a.lives.items }) };
}

impl GiveUp {
    /// The clients of these uuids are given up, for the client with that ident, which asks for these lives. It takes no memory.
    pub fn new(by: Ident, uuids: Vec<Id>, lives: Vec<Life>) -> GiveUp
        requires named { 1 ≤ by }
        requires few_uuids { length uuids.items ≤ most_uuids }
        requires few_lives { length lives.items ≤ most_lives }
        ensures { result ≡ record { by = by; uuids = uuids.items; lives = lives.items } }
    {
        GiveUp { by, uuids, lives }
    }

    /// The heir.
    pub fn by(&self) -> Ident
        ensures value { result ≡ self.now.by }
        ensures named { 1 ≤ result }
    {
        self.by
    }

    /// The clients that are given up.
    pub fn uuids(&self) -> &[Id]
        ensures value { result.now ≡ self.now.uuids }
        ensures few { length result.now ≤ most_uuids }
    {
        self.uuids.as_slice()
    }

    /// The lives that are asked for.
    pub fn lives(&self) -> &[Life]
        ensures value { result.now ≡ self.now.lives }
        ensures few { length result.now ≤ most_lives }
    {
        self.lives.as_slice()
    }
}
