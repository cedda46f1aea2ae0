ghost use Rattle.std.specs.Prelude.{◌≡◌, ◌<◌, ◌++◌, ◌∷◌, [], All, get_or, length, map, slice_get, OnOk, OnErr};
ghost use Rattle.std.specs.Option.{option_map};
ghost use Rattle.byte_lists.specs.Parts.{part, IsWithin};

use std::alloc::{AllocError, Global};
use std::marker::Model;

/// A list of byte strings. They stand in one block of memory, so that none is an allocation of its own.
#[derive(Drop)]
pub struct ByteLists {
    bytes: Vec<u8>,
    parts: Vec<(usize, usize)>,
}

impl Model for ByteLists {
    ghost use Rattle.std.specs.Prelude.{ℕ, List, All, map, length};
    ghost use Rattle.byte_lists.specs.Parts.{part, IsWithin};

    ghost Value = { List (List ℕ) };

    ghost view = { λ a. map (part a.bytes.items) a.parts.items };

    ghost invariant = { λ a. All (IsWithin (length a.bytes.items)) a.parts.items };
}

impl ByteLists {
    /// No strings. It takes no memory.
    pub fn new(alloc: Global) -> ByteLists
        ensures { result ≡ [] }
    {
        ByteLists {
            bytes: Vec::new(alloc),
            parts: Vec::new(alloc),
        }
    }

    /// The parts of a block of bytes, each from a place to another. It takes no memory.
    pub fn of(bytes: Vec<u8>, parts: Vec<(usize, usize)>) -> ByteLists
        requires { All (IsWithin (length bytes.items)) parts.items }
        ensures { result ≡ map (part bytes.items) parts.items }
    {
        ByteLists { bytes, parts }
    }

    /// How many strings there are.
    pub fn len(&self) -> usize
        ensures { result ≡ length self.now }
    {
        self.parts.len()
    }

    /// The string at a place, counted from 0; none from their number on.
    pub fn get(&self, place: usize) -> Option<&[u8]>
        ensures { option_map (λ s. s.now) result ≡ slice_get self.now place }
    {
        match self.parts.get(place) {
            Some((start, end)) => Some(&self.bytes[*start..*end]),
            None => None,
        }
    }

    /// The string at a place, counted from 0.
    pub fn at(&self, place: usize) -> &[u8]
        requires { place < length self.now }
        ensures { result.now ≡ get_or self.now place [] }
    {
        let (start, end) = self.parts[place];
        &self.bytes[start..end]
    }

    /// Appends a string. Where there is no memory for it nothing changes.
    pub fn push(&mut self, string: &[u8]) -> Result<(), AllocError>
        ensures ok { OnOk result (self.new ≡ self.old ++ string.now ∷ []) }
        ensures unchanged { OnErr result (self.new ≡ self.old) }
    {
        let start = self.bytes.len();
        self.bytes.extend_from_slice(string)?;
        let end = self.bytes.len();
        match self.parts.push((start, end)) {
            Ok(()) => {}
            Err(_) => return Err(AllocError),
        }
        Ok(())
    }
}
