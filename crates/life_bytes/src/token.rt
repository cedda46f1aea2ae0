ghost use Rattle.std.specs.Prelude.{◌≡◌, ◌≤◌};

use crate::life::Life;
use std::marker::Model;

/// A transaction by what it is in the file that made it: its life and its number, at least 1.
#[derive(Clone, Copy)]
pub struct Token {
    life: Life,
    number: u32,
}

impl Model for Token {
    ghost use Rattle.life_bytes.specs.Parts.{TokenParts, IsToken};

    ghost Value = { TokenParts };

    ghost view = { λ a. record { life = a.life; number = a.number } };

    ghost invariant = { λ a. IsToken (record { life = a.life; number = a.number }) };

    ghost inverse = { λ token. record { life = token.life; number = token.number } };
}

impl Token {
    /// The transaction of that number in that life.
    pub fn new(life: Life, number: u32) -> Token
        requires { 1 ≤ number }
        ensures { result ≡ record { life = life; number = number } }
    {
        Token { life, number }
    }

    /// The life in which it was made.
    pub fn life(&self) -> Life
        ensures { result ≡ self.now.life }
    {
        self.life
    }

    /// Its number in the file that made it.
    pub fn number(&self) -> u32
        ensures value { result ≡ self.now.number }
        ensures numbered { 1 ≤ result }
    {
        self.number
    }
}
