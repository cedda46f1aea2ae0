ghost use Rattle.std.specs.Prelude.{◌≡◌, ℕ, ◌≤◌, ◌<◌, List, length, nat_eq, refl, IfOk, Some, ◌↔◌};
ghost use Rattle.std.specs.Ordering.{nat_cmp};
ghost use Rattle.std.specs.Cmp.{partial_equiv_from_equiv};
ghost use Rattle.std.specs.Cmp.Lexicographic.{pointwise, slice_cmp, nat_list_eq_equiv, nat_list_cmp_total, texts_ties, texts_po};

use super::memory::NoMemory;
use std::alloc::{AllocError, Global};
use std::cmp::Ordering;
use std::marker::Model;

/// The most bytes of a text key.
pub const LONGEST_KEY: usize = 255;

/// Why no text key was made: `BadKey` for a text of more than 255 bytes.
#[derive(Clone, Copy, Debug, PartialEq, Eq)]
pub enum KeyRefusal {
    BadKey,
    NoMemory,
}

/// The text of a key: 0 to 255 bytes of UTF-8. Contracts see it as its bytes.
pub struct KeyText {
    text: String,
}

impl Drop for KeyText {
    fn drop(self) {
        let KeyText { text: _ } = self;
    }
}

impl Model for KeyText {
    ghost use Rattle.std.specs.Prelude.{ℕ, List, ◌≤◌, length, string_bytes};

    ghost Value = { List ℕ };

    ghost view = { λ k. string_bytes k.text };

    ghost invariant = { λ k. length (string_bytes k.text) ≤ 255 };
}

impl KeyText {
    /// The text key of that text.
    pub fn new(alloc: Global, text: &str) -> Result<KeyText, KeyRefusal>
        ensures ok { IfOk result (λ key. key ≡ text.now) }
        ensures bad { (result ≡ Err KeyRefusal.BadKey) ↔ (255 < length text.now) }
    {
        if text.len() > LONGEST_KEY {
            return Err(KeyRefusal::BadKey);
        }
        match String::from_str(alloc, text) {
            Ok(text) => Ok(KeyText { text }),
            Err(_) => Err(KeyRefusal::NoMemory),
        }
    }

    /// The text that is held.
    pub fn text(&self) -> &str
        ensures value { result.now ≡ self.now }
        ensures size { length self.now ≤ 255 }
    {
        self.text.as_str()
    }

    /// An equal text key.
    pub fn copy(&self) -> Result<KeyText, NoMemory>
        ensures equal { IfOk result (λ copy. copy ≡ self.now) }
    {
        match self.text.clone() {
            Ok(text) => Ok(KeyText { text }),
            Err(_) => Err(NoMemory),
        }
    }
}

impl Clone for KeyText {
    ghost is_clone = { λ x y. y ≡ x };

    ghost is_infallible = { λ _. ⊥ };

    fn clone(&self) -> Result<KeyText, AllocError> {
        match self.copy() {
            Ok(copy) => Ok(copy),
            Err(_) => Err(AllocError),
        }
    }
}

impl PartialEq for KeyText {
    ghost eq = { pointwise nat_eq };

    ghost laws = { partial_equiv_from_equiv nat_list_eq_equiv };

    fn eq(&self, other: &KeyText) -> bool {
        self.text() == other.text()
    }
}

impl Eq for KeyText {
    ghost laws = { nat_list_eq_equiv };
}

impl PartialOrd for KeyText {
    ghost partial_cmp = { λ x y. Some (slice_cmp nat_cmp x y) };

    ghost laws = { texts_po };

    fn partial_cmp(&self, other: &KeyText) -> Option<Ordering> {
        Some(self.cmp(other))
    }
}

impl Ord for KeyText {
    ghost cmp = { slice_cmp nat_cmp };

    ghost total = { nat_list_cmp_total };

    ghost matches_partial_cmp = { λ x y. refl };

    ghost matches_eq = { texts_ties };

    fn cmp(&self, other: &KeyText) -> Ordering {
        self.text().cmp(other.text())
    }
}
