ghost use Rattle.std.specs.Prelude.{◌≡◌, OnOk, ◌∷◌, [], length, ◌≤◌, ◌<◌, ◌^◌};
ghost use Rattle.std.specs.List.{AllByRecursion};
ghost use Rattle.sync_io.specs.Varints.{zigzag};
ghost use Rattle.sync_codec.specs.Spelling.{byte, number, run, string};
ghost use Rattle.sync_codec.specs.Writing.{with_field};
ghost use Rattle.sync_codec.specs.Valid.{IsString};

use crate::encoding::with_room;
use std::alloc::Global;
use std::marker::Model;
use sync_base::NoMemory;
use sync_intern::Strings;
use sync_io::{put_varint32, put_varint64, zigzag32, zigzag64};

/// Room for the fields of most changesets.
const ROOM: usize = 64;

/// The most strings that have numbers.
const MOST_STRINGS: usize = 0xffff_ffff;

/// The fields that were written, with the strings that they use.
#[derive(Drop)]
pub struct Writer<'a> {
    strings: Strings<'a>,
    bytes: Vec<u8>,
}

impl<'a> Model for Writer<'a> {
    ghost use Rattle.std.specs.List.{AllByRecursion};
    ghost use Rattle.sync_codec.specs.Writing.{Written};
    ghost use Rattle.sync_codec.specs.Valid.{IsString};

    ghost Value = { Written };

    ghost view = { λ a. record { strings = a.strings; bytes = a.bytes.items } };

    ghost invariant = { λ a. AllByRecursion IsString a.strings };
}

impl<'a> Writer<'a> {
    /// No fields.
    pub fn new(alloc: Global) -> Result<Writer<'a>, NoMemory>
        ensures { result ≡ Ok (record { strings = []; bytes = [] }) }
    {
        match Strings::new(alloc) {
            Ok(strings) => Ok(Writer {
                strings,
                bytes: with_room(alloc, ROOM),
            }),
            Err(_) => Err(NoMemory),
        }
    }

    /// The strings that the fields use, in order of first use.
    pub fn strings(&self) -> &Strings<'a>
        ensures used { result.now ≡ self.now.strings }
        ensures are { AllByRecursion IsString self.now.strings }
    {
        &self.strings
    }

    /// The fields' bytes.
    pub fn bytes(&self) -> &[u8]
        ensures { result.now ≡ self.now.bytes }
    {
        self.bytes.as_slice()
    }

    /// Writes a byte.
    pub fn byte(&mut self, value: u8) -> Result<(), NoMemory>
        ensures { OnOk result (self.new ≡ with_field self.old (byte value)) }
    {
        match self.bytes.push(value) {
            Ok(()) => Ok(()),
            Err(_) => Err(NoMemory),
        }
    }

    /// Writes a number of at most 32 bits.
    pub fn number32(&mut self, value: u32) -> Result<(), NoMemory>
        ensures { OnOk result (self.new ≡ with_field self.old (number value)) }
    {
        match put_varint32(&mut self.bytes, value) {
            Ok(()) => Ok(()),
            Err(_) => Err(NoMemory),
        }
    }

    /// Writes a number of at most 64 bits.
    pub fn number64(&mut self, value: u64) -> Result<(), NoMemory>
        ensures { OnOk result (self.new ≡ with_field self.old (number value)) }
    {
        match put_varint64(&mut self.bytes, value) {
            Ok(()) => Ok(()),
            Err(_) => Err(NoMemory),
        }
    }

    /// Writes a number with a sign, of at most 32 bits.
    pub fn signed32(&mut self, value: i32) -> Result<(), NoMemory>
        ensures small { zigzag value < 2 ^ 32 }
        ensures spelled { OnOk result (self.new ≡ with_field self.old (number (zigzag value))) }
    {
        self.number32(zigzag32(value))
    }

    /// Writes a number with a sign, of at most 64 bits.
    pub fn signed64(&mut self, value: i64) -> Result<(), NoMemory>
        ensures small { zigzag value < 2 ^ 64 }
        ensures spelled { OnOk result (self.new ≡ with_field self.old (number (zigzag value))) }
    {
        self.number64(zigzag64(value))
    }

    /// Writes bytes whose length is known.
    pub fn run(&mut self, bytes: &[u8]) -> Result<(), NoMemory>
        ensures { OnOk result (self.new ≡ with_field self.old (run bytes.now)) }
    {
        match self.bytes.extend_from_slice(bytes) {
            Ok(()) => Ok(()),
            Err(_) => Err(NoMemory),
        }
    }

    /// Writes the number of a string of at most 255 bytes, which is used from now on.
    #[tactic(auto, using(crate::specs::Lemmas::utf8_is, crate::specs::Lemmas::Strings::with_one))]
    pub fn string(&mut self, text: &'a str) -> Result<(), NoMemory>
        requires { length text.now ≤ 255 }
        ensures { OnOk result (self.new ≡ with_field self.old (string text.now)) }
    {
        if self.strings.len() >= MOST_STRINGS {
            return Err(NoMemory);
        }
        match self.strings.number(text) {
            Ok(number) => self.number32(number),
            Err(_) => Err(NoMemory),
        }
    }
}
