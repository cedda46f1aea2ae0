ghost use Rattle.std.specs.Prelude.{◌≡◌, ℕ, ◌≤◌, ◌<◌, List, length, take, nat_eq, refl, IfOk, Some, ◌↔◌, IsOk, OnErr};
ghost use Rattle.std.specs.Str.{IsUtf8};
ghost use Rattle.std.specs.Ordering.{nat_cmp};
ghost use Rattle.std.specs.Cmp.{partial_equiv_from_equiv};
ghost use Rattle.std.specs.Cmp.Lexicographic.{pointwise, slice_cmp, nat_list_eq_equiv, nat_list_cmp_total, texts_ties, texts_po};

use super::memory::NoMemory;
use std::alloc::AllocError;
use std::cmp::Ordering;
use std::marker::Model;

/// The most bytes of a name.
pub const LONGEST_NAME: usize = 63;

/// Why no name was made: `BadName` for a text of 0 or more than 63 bytes.
#[derive(Clone, Copy, Debug, PartialEq, Eq)]
pub enum NameRefusal {
    BadName,
}

/// The name of a table or a column: 1 to 63 bytes of UTF-8, kept in place, so that a copy takes no memory.
/// Contracts see it as its bytes.
#[derive(Drop)]
pub struct Name {
    buf: [u8; LONGEST_NAME],
    len: u8,
}

impl Model for Name {
    ghost use Rattle.std.specs.Prelude.{ℕ, List, ◌≤◌, ◌<◌, take};
    ghost use Rattle.std.specs.Str.{IsUtf8};

    ghost Value = { List ℕ };

    ghost view = { λ n. take n.len n.buf };

    ghost invariant = { λ n. (0 < n.len) × (n.len ≤ 63) × IsUtf8 (take n.len n.buf) };
}

impl Name {
    /// The name of that text. It takes no memory.
    pub fn new(text: &str) -> Result<Name, NameRefusal>
        ensures ok { IfOk result (λ name. name ≡ text.now) }
        ensures good { IsOk result ↔ ((0 < length text.now) × (length text.now ≤ 63)) }
    {
        let bytes = text.as_bytes();
        let len = bytes.len();
        if len == 0 || len > LONGEST_NAME {
            return Err(NameRefusal::BadName);
        }
        let mut buf = [0; LONGEST_NAME];
        buf[..len].copy_from_slice(bytes);
        Ok(Name {
            buf,
            len: len as u8,
        })
    }

    /// The text of the name, which has 1 to 63 bytes.
    pub fn text(&self) -> &str
        ensures value { result.now ≡ self.now }
        ensures size { (0 < length self.now) × (length self.now ≤ 63) }
    {
        str::from_utf8(&self.buf[..self.len as usize]).unwrap()
    }

    /// How many bytes the name has: 1 to 63.
    pub fn len(&self) -> usize
        ensures value { result ≡ length self.now }
        ensures size { (0 < length self.now) × (length self.now ≤ 63) }
    {
        self.len as usize
    }

    /// The bytes of the name's text.
    fn bytes(&self) -> &[u8]
        ensures { result.now ≡ self.now }
    {
        &self.buf[..self.len as usize]
    }

    /// An equal name. It takes no memory and always succeeds.
    pub fn copy(&self) -> Result<Name, NoMemory>
        ensures equal { result ≡ Ok self.now }
    {
        Ok(Name {
            buf: self.buf,
            len: self.len,
        })
    }
}

impl Clone for Name {
    ghost is_clone = { λ x y. y ≡ x };

    ghost is_infallible = { λ _. ⊥ };

    fn clone(&self) -> Result<Name, AllocError> {
        match self.copy() {
            Ok(copy) => Ok(copy),
            Err(_) => Err(AllocError),
        }
    }
}

impl PartialEq for Name {
    ghost eq = { pointwise nat_eq };

    ghost laws = { partial_equiv_from_equiv nat_list_eq_equiv };

    fn eq(&self, other: &Name) -> bool {
        self.bytes() == other.bytes()
    }
}

impl Eq for Name {
    ghost laws = { nat_list_eq_equiv };
}

impl PartialOrd for Name {
    ghost partial_cmp = { λ x y. Some (slice_cmp nat_cmp x y) };

    ghost laws = { texts_po };

    fn partial_cmp(&self, other: &Name) -> Option<Ordering> {
        Some(self.cmp(other))
    }
}

impl Ord for Name {
    ghost cmp = { slice_cmp nat_cmp };

    ghost total = { nat_list_cmp_total };

    ghost matches_partial_cmp = { λ x y. refl };

    ghost matches_eq = { texts_ties };

    fn cmp(&self, other: &Name) -> Ordering {
        self.bytes().cmp(other.bytes())
    }
}
