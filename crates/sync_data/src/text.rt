ghost use Rattle.std.specs.Prelude.{◌≡◌, ℕ, List, IfOk, Some, refl, nat_eq};
ghost use Rattle.std.specs.Ordering.{nat_cmp};
ghost use Rattle.std.specs.Cmp.{partial_equiv_from_equiv};
ghost use Rattle.std.specs.Cmp.Lexicographic.{pointwise, slice_cmp, nat_list_eq_equiv, nat_list_cmp_total, texts_ties, texts_po};

use super::memory::NoMemory;
use std::alloc::{AllocError, Global};
use std::cmp::Ordering;
use std::marker::Model;

/// A text value: UTF-8 of any length. Contracts see it as its bytes.
pub struct Text {
    text: String,
}

impl Drop for Text {
    fn drop(self) {
        let Text { text: _ } = self;
    }
}

impl Model for Text {
    ghost use Rattle.std.specs.Prelude.{ℕ, List, string_bytes};

    ghost Value = { List ℕ };

    ghost view = { λ k. string_bytes k.text };
}

impl Text {
    /// The text value of that text.
    pub fn new(alloc: Global, text: &str) -> Result<Text, NoMemory>
        ensures equal { IfOk result (λ made. made ≡ text.now) }
    {
        match String::from_str(alloc, text) {
            Ok(text) => Ok(Text { text }),
            Err(_) => Err(NoMemory),
        }
    }

    /// The text that is held.
    pub fn text(&self) -> &str
        ensures { result.now ≡ self.now }
    {
        self.text.as_str()
    }

    /// An equal text.
    pub fn copy(&self) -> Result<Text, NoMemory>
        ensures equal { IfOk result (λ copy. copy ≡ self.now) }
    {
        match self.text.clone() {
            Ok(text) => Ok(Text { text }),
            Err(_) => Err(NoMemory),
        }
    }
}

impl Clone for Text {
    ghost is_clone = { λ x y. y ≡ x };

    ghost is_infallible = { λ _. ⊥ };

    fn clone(&self) -> Result<Text, AllocError> {
        match self.copy() {
            Ok(copy) => Ok(copy),
            Err(_) => Err(AllocError),
        }
    }
}

impl PartialEq for Text {
    ghost eq = { pointwise nat_eq };

    ghost laws = { partial_equiv_from_equiv nat_list_eq_equiv };

    fn eq(&self, other: &Text) -> bool {
        self.text() == other.text()
    }
}

impl Eq for Text {
    ghost laws = { nat_list_eq_equiv };
}

impl PartialOrd for Text {
    ghost partial_cmp = { λ x y. Some (slice_cmp nat_cmp x y) };

    ghost laws = { texts_po };

    fn partial_cmp(&self, other: &Text) -> Option<Ordering> {
        Some(self.cmp(other))
    }
}

impl Ord for Text {
    ghost cmp = { slice_cmp nat_cmp };

    ghost total = { nat_list_cmp_total };

    ghost matches_partial_cmp = { λ x y. refl };

    ghost matches_eq = { texts_ties };

    fn cmp(&self, other: &Text) -> Ordering {
        self.text().cmp(other.text())
    }
}
