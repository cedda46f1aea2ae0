ghost use Rattle.std.specs.Prelude.{◌≡◌, ◌↔◌, length, IfOk, IsTrue, ◌≤◌};
ghost use Rattle.sync_codec.specs.Fields.{Gives};
ghost use Rattle.sync_codec.specs.Reading.{byte_at, run_at, number32_at, signed32_at, signed64_at, string_at, name_at};

use crate::fields::{byte_of, number32_of, run_of, signed32_of, signed64_of};
use crate::refusal::{ReadRefusal, Rule, broken};
use std::marker::Model;
use sync_base::{Id, Name};
use sync_intern::Strings;

/// The bytes of instructions that are left, with the strings that they may use.
#[derive(Drop)]
pub struct Reader<'a> {
    second: bool,
    strings: &'a Strings<'a>,
    used: usize,
    rest: &'a [u8],
}

impl<'a> Model for Reader<'a> {
    ghost use Rattle.sync_codec.specs.Reading.{Reading};

    ghost Value = { Reading };

    ghost view = { λ a. record { second = a.second; strings = a.strings.now; used = a.used; rest = a.rest.now } };
}

impl<'a> Reader<'a> {
    /// A reader of those bytes, where no string was used yet. `second` is whether the first byte of all was 2.
    pub fn new(second: bool, strings: &'a Strings<'a>, rest: &'a [u8]) -> Reader<'a>
        ensures { result ≡ record { second = second; strings = strings.now; used = 0; rest = rest.now } }
    {
        Reader {
            second,
            strings,
            used: 0,
            rest,
        }
    }

    /// The bytes that are left.
    pub fn rest(&self) -> &'a [u8]
        ensures { result.now ≡ self.now.rest }
    {
        self.rest
    }

    /// Whether the first byte of all was 2.
    pub fn second(&self) -> bool
        ensures { result ≡ self.now.second }
    {
        self.second
    }

    /// Whether each string was used.
    pub fn all_used(&self) -> bool
        ensures { IsTrue result ↔ (length self.now.strings ≤ self.now.used) }
    {
        self.used >= self.strings.len()
    }

    /// The next byte.
    pub fn byte(&mut self) -> Result<u8, ReadRefusal>
        ensures { Gives (λ b. (b, self.new)) result (byte_at self.old) }
    {
        let (byte, rest) = byte_of(self.rest)?;
        self.rest = rest;
        Ok(byte)
    }

    /// The next number of at most 32 bits.
    pub fn number32(&mut self) -> Result<u32, ReadRefusal>
        ensures { Gives (λ n. (n, self.new)) result (number32_at self.old) }
    {
        let (number, rest) = number32_of(self.rest)?;
        self.rest = rest;
        Ok(number)
    }

    /// The next number with a sign, of at most 32 bits.
    pub fn signed32(&mut self) -> Result<i32, ReadRefusal>
        ensures { Gives (λ n. (n, self.new)) result (signed32_at self.old) }
    {
        let (number, rest) = signed32_of(self.rest)?;
        self.rest = rest;
        Ok(number)
    }

    /// The next number with a sign, of at most 64 bits.
    pub fn signed64(&mut self) -> Result<i64, ReadRefusal>
        ensures { Gives (λ n. (n, self.new)) result (signed64_at self.old) }
    {
        let (number, rest) = signed64_of(self.rest)?;
        self.rest = rest;
        Ok(number)
    }

    /// The next bytes, so many.
    pub fn run(&mut self, len: usize) -> Result<&'a [u8], ReadRefusal>
        ensures { Gives (λ run. (run.now, self.new)) result (run_at len self.old) }
    {
        let (run, rest) = run_of(self.rest, len)?;
        self.rest = rest;
        Ok(run)
    }

    /// The next 16 bytes.
    pub fn id(&mut self) -> Result<Id, ReadRefusal>
        ensures { Gives (λ id. (id, self.new)) result (run_at 16 self.old) }
    {
        let run = self.run(16)?;
        let mut id = [0; 16];
        id.copy_from_slice(run);
        Ok(id)
    }

    /// The next string that was used before, or is the first that wasn't.
    #[tactic(auto, unfolding(crate::specs::Reading::string_at))]
    pub fn string(&mut self) -> Result<&'a str, ReadRefusal>
        ensures text { Gives (λ s. (s.now, self.new)) result (string_at self.old) }
        ensures short { IfOk result (λ s. length s.now ≤ 255) }
    {
        let field = self.rest;
        let number = self.number32()?;
        let place = number as usize;
        if place > self.used {
            return broken(field, Rule::StringOrder);
        }
        match self.strings.get(number) {
            None => broken(field, Rule::StringOrder),
            Some(text) => {
                if place == self.used {
                    self.used = place + 1;
                }
                Ok(text)
            }
        }
    }

    /// The next name.
    #[tactic(auto, unfolding(crate::specs::Reading::name_at))]
    pub fn name(&mut self) -> Result<Name, ReadRefusal>
        ensures { Gives (λ n. (n, self.new)) result (name_at self.old) }
    {
        let field = self.rest;
        let text = self.string()?;
        match Name::new(text) {
            Ok(name) => Ok(name),
            Err(_) => broken(field, Rule::NameLength),
        }
    }
}
