ghost use Rattle.std.specs.Prelude.{◌≡◌, ◌-◌, ◌<◌, ◌≤◌, ◌^◌, [], ◌∷◌, ◌++◌, length, map, slice_get, is_some, IsTrue, IfOk, IfSome, OnOk, OnErr, ◌↔◌, false};
ghost use Rattle.std.specs.Option.{option_map};
ghost use Rattle.std.specs.List.{IsDistinct};
ghost use Rattle.std.specs.Str.{bytes_eq};
ghost use Rattle.sync_intern.specs.FirstUses.{has_string, with_string, place_of, place_in, AreShort};

use super::places::{FEW, is_indexed, place_among, places_with};
use std::alloc::Global;
use std::collections::BTreeMap;
use std::marker::Model;

/// The most bytes of a string.
pub const LONGEST_STRING: usize = 255;

/// Memory ran out.
#[derive(Clone, Copy, Debug, PartialEq, Eq)]
pub struct NoMemory;

/// Strings of at most 255 bytes, each once, in the order of their first use. The first has number 0.
/// Contracts see the list of their bytes. They are borrowed; where there are many, an index of their copies tells their places.
#[derive(Drop)]
pub struct Strings<'a> {
    alloc: Global,
    texts: Vec<&'a str>,
    places: Option<BTreeMap<String, usize>>,
}

impl<'a> Model for Strings<'a> {
    ghost use Rattle.std.specs.Prelude.{ℕ, List, map, IfSome};
    ghost use Rattle.std.specs.List.{IsDistinct};
    ghost use Rattle.std.specs.Str.{bytes_eq};
    ghost use Rattle.sync_intern.specs.FirstUses.{AreShort};
    ghost use Rattle.sync_intern.specs.Indexes.{Indexes};

    ghost Value = { List (List ℕ) };

    ghost view = { λ a. map (λ s. s.now) a.texts.items };

    ghost invariant = { λ a. AreShort (map (λ s. s.now) a.texts.items) × IsDistinct bytes_eq (map (λ s. s.now) a.texts.items)
        × IfSome a.places (λ p. Indexes p (map (λ s. s.now) a.texts.items)) };
}

impl<'a> Strings<'a> {
    /// No strings. It takes no memory and always succeeds.
    pub fn new(alloc: Global) -> Result<Strings<'a>, NoMemory>
        ensures none { result ≡ Ok [] }
    {
        Ok(Strings {
            alloc,
            texts: Vec::new(alloc),
            places: None,
        })
    }

    /// No strings, with room for so many where they are few.
    pub fn with_room(alloc: Global, count: usize) -> Result<Strings<'a>, NoMemory>
        ensures none { IfOk result (λ made. made ≡ []) }
    {
        let Ok(texts) = Vec::with_capacity(alloc, count.min(FEW)) else {
            return Err(NoMemory);
        };
        Ok(Strings {
            alloc,
            texts,
            places: None,
        })
    }

    /// How many strings there are.
    pub fn len(&self) -> usize
        ensures { result ≡ length self.now }
    {
        self.texts.len()
    }

    /// Whether there are none.
    pub fn is_empty(&self) -> bool
        ensures { IsTrue result ↔ (length self.now ≡ 0) }
    {
        self.texts.is_empty()
    }

    /// The strings, in order of first use.
    pub fn as_slice(&self) -> &[&'a str]
        ensures strings { map (λ s. s.now) result.now ≡ self.now }
        ensures short { AreShort self.now }
        ensures distinct { IsDistinct bytes_eq self.now }
    {
        self.texts.as_slice()
    }

    /// The string of that number, where there is one.
    pub fn get(&self, number: u32) -> Option<&'a str>
        ensures string { option_map (λ s. s.now) result ≡ slice_get self.now number }
        ensures short { IfSome result (λ s. length s.now ≤ 255) }
    {
        match self.texts.get(number as usize) {
            Some(text) => Some(*text),
            None => None,
        }
    }

    /// The number of a string, where it was used. It changes nothing.
    pub fn place(&self, text: &str) -> Option<usize>
        ensures place { result ≡ place_in self.now text.now }
        ensures found { is_some result ≡ has_string self.now text.now }
    {
        match &self.places {
            Some(places) => places.get(text).copied(),
            None => place_among(self.texts.as_slice(), text),
        }
    }

    /// The number of a string, which is used from now on: a new one goes last. NoMemory changes nothing.
    pub fn number(&mut self, text: &'a str) -> Result<u32, NoMemory>
        requires short { length text.now ≤ 255 }
        requires room { length self.old < 2 ^ 32 - 1 }
        ensures number { IfOk result (λ n. n ≡ place_of self.new text.now) }
        ensures strings { OnOk result (self.new ≡ with_string self.old text.now) }
        ensures kept { OnErr result (self.new ≡ self.old) }
    {
        if let Some(place) = self.place(text) {
            return Ok(place as u32);
        }
        self.add(text)
    }

    /// The number of a string that wasn't used before, which goes last. NoMemory changes nothing.
    pub fn add(&mut self, text: &'a str) -> Result<u32, NoMemory>
        requires short { length text.now ≤ 255 }
        requires room { length self.old < 2 ^ 32 - 1 }
        requires new_ { has_string self.old text.now ≡ false }
        ensures number { IfOk result (λ n. n ≡ length self.old) }
        ensures strings { OnOk result (self.new ≡ self.old ++ text.now ∷ []) }
        ensures kept { OnErr result (self.new ≡ self.old) }
    {
        let place = self.texts.len();
        let Ok(()) = self.texts.push(text) else {
            return Err(NoMemory);
        };
        if is_indexed(&self.places, self.texts.len()) {
            let before = self.places.take();
            self.places = places_with(self.alloc, before, self.texts.as_slice());
        }
        Ok(place as u32)
    }
}
