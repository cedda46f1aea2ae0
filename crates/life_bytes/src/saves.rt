ghost use Rattle.std.specs.Prelude.{◌≡◌, ◌≤◌, length, IfOk};
ghost use Rattle.life_bytes.specs.Parts.{most_tokens};

use crate::token::Token;
use std::marker::Model;

/// The original that a transaction saves, and its frontier: what must stand before it. The frontier has at most 4,096 tokens.
#[derive(Drop)]
pub struct Saves {
    token: Token,
    frontier: Vec<Token>,
}

/// A transaction saves another: its number in the file that saves, and what it saves.
#[derive(Drop)]
pub struct Saving {
    pub number: u32,
    pub saves: Saves,
}

impl Model for Saves {
    ghost use Rattle.life_bytes.specs.Parts.{SavesParts, IsSaves};

    ghost Value = { SavesParts };

    ghost view = { λ a. record { token = a.token; frontier = a.frontier.items } };

    ghost invariant = { λ a. IsSaves (record { token = a.token; frontier = a.frontier.items }) };
}

impl Saves {
    /// That original, behind that frontier. It takes no memory.
    pub fn new(token: Token, frontier: Vec<Token>) -> Saves
        requires few { length frontier.items ≤ most_tokens }
        ensures { result ≡ record { token = token; frontier = frontier.items } }
    {
        Saves { token, frontier }
    }

    /// The original.
    pub fn token(&self) -> Token
        ensures { result ≡ self.now.token }
    {
        self.token
    }

    /// What must stand before it.
    pub fn frontier(&self) -> &[Token]
        ensures value { result.now ≡ self.now.frontier }
        ensures few { length result.now ≤ most_tokens }
    {
        self.frontier.as_slice()
    }
}
