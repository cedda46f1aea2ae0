ghost use Rattle.std.specs.Prelude.{◌≡◌, IfSome, OnOk, OnErr};
ghost use Rattle.std.specs.Cmp.Lexicographic.{slice_cmp};
ghost use Rattle.std.specs.Option.{option_map};
ghost use Rattle.std.specs.Ordering.{nat_cmp};
ghost use Rattle.sync_maps.specs.Next.{IsNext};
ghost use Rattle.life_marks.specs.Reached.{raised, has, nothing_reached};

use life_bytes::{Life, Token};
use std::alloc::Global;
use std::collections::BTreeMap;
use sync_data::{Id, NoMemory};
use sync_maps::next_key;

/// Of each life the highest number of a transaction that is told.
#[derive(Drop)]
pub struct Reached {
    numbers: BTreeMap<Id, u32>,
}

impl Reached {
    ghost use Rattle.life_marks.specs.Reached.{is_told, number_of};

    /// None. It takes no memory.
    pub fn new(alloc: Global) -> Reached
        ensures { number_of result ≡ nothing_reached }
    {
        Reached {
            numbers: BTreeMap::new(alloc),
        }
    }

    /// The highest number of a life, or 0.
    pub fn of(&self, life: Life) -> u32
        ensures { result ≡ number_of self.now life }
    {
        match self.numbers.get(&life.bytes()) {
            Some(number) => *number,
            None => 0,
        }
    }

    /// The least life above that one, or the least of all, of which a number is told, and its number.
    pub fn next(&self, after: Option<Life>) -> Option<(Life, u32)>
        ensures life { IsNext (slice_cmp nat_cmp) (is_told self.now) after (option_map (λ told. told.0) result) }
        ensures number { IfSome result (λ told. told.1 ≡ number_of self.now told.0) }
    {
        let life = Life::new(*self.next_life(after)?);
        Some((life, self.of(life)))
    }

    fn next_life(&self, after: Option<Life>) -> Option<&Id>
        ensures { IsNext (slice_cmp nat_cmp) (is_told self.now) after (option_map (λ life. life.now) result) }
    {
        match after {
            Some(life) => next_key(&self.numbers, Some(&life.bytes())),
            None => next_key(&self.numbers, None),
        }
    }

    /// Whether it has the transaction of this token.
    pub fn has(&self, token: Token) -> bool
        ensures { result ≡ has (number_of self.now) token }
    {
        token.number() <= self.of(token.life())
    }

    /// From now on it has it. After `NoMemory` nothing changed.
    pub fn reach(&mut self, token: Token) -> Result<(), NoMemory>
        ensures ok { OnOk result (number_of self.new ≡ raised token (number_of self.old)) }
        ensures err { OnErr result (number_of self.new ≡ number_of self.old) }
    {
        if self.has(token) {
            return Ok(());
        }
        match self.numbers.insert(token.life().bytes(), token.number()) {
            Ok(_) => Ok(()),
            Err(_) => Err(NoMemory),
        }
    }
}
