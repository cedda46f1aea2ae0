ghost use Rattle.std.specs.Prelude.{◌≡◌, IfOk, refl};
ghost use Rattle.sync_data.specs.Orders.{key_cmp, key_cmp_total, key_rank};
ghost use Rattle.std.specs.Ordering.{eq_by_cmp, as_partial_cmp};
ghost use Rattle.std.specs.Cmp.{partial_equiv_from_equiv, eq_by_cmp_equiv, partial_order_from_total};

use super::key_text::KeyText;
use super::memory::NoMemory;
use std::alloc::AllocError;
use std::cmp::Ordering;

/// A uuid, as its 16 bytes.
pub type Id = [u8; 16];

/// The kind of a table's keys.
#[derive(Clone, Copy, Debug, PartialEq, Eq)]
pub enum KeyKind {
    Int,
    Text,
    Uuid,
}

/// The key of an object: a number, a text or a uuid.
pub enum Key {
    Int(i64),
    Text(KeyText),
    Uuid(Id),
}

impl Drop for Key {
    fn drop(self) {
        match self {
            Key::Int(_) => {}
            Key::Text(_) => {}
            Key::Uuid(_) => {}
        }
    }
}

impl Key {
    /// An equal key.
    pub fn copy(&self) -> Result<Key, NoMemory>
        ensures equal { IfOk result (λ copy. copy ≡ self.now) }
    {
        match self {
            Key::Int(n) => Ok(Key::Int(*n)),
            Key::Text(text) => Ok(Key::Text(text.copy()?)),
            Key::Uuid(id) => Ok(Key::Uuid(*id)),
        }
    }
}

impl Key {
    fn rank(&self) -> u8
        ensures { result ≡ key_rank self.now }
    {
        match self {
            Key::Int(_) => 0,
            Key::Text(_) => 1,
            Key::Uuid(_) => 2,
        }
    }
}

impl Clone for Key {
    ghost is_clone = { λ x y. y ≡ x };

    ghost is_infallible = { λ _. ⊥ };

    fn clone(&self) -> Result<Key, AllocError> {
        match self.copy() {
            Ok(copy) => Ok(copy),
            Err(_) => Err(AllocError),
        }
    }
}

impl PartialEq for Key {
    ghost eq = { eq_by_cmp key_cmp };

    ghost laws = { partial_equiv_from_equiv (eq_by_cmp_equiv key_cmp_total) };

    fn eq(&self, other: &Key) -> bool {
        self.cmp(other).is_eq()
    }
}

impl Eq for Key {
    ghost laws = { eq_by_cmp_equiv key_cmp_total };
}

impl PartialOrd for Key {
    ghost partial_cmp = { as_partial_cmp key_cmp };

    ghost laws = { partial_order_from_total key_cmp_total };

    fn partial_cmp(&self, other: &Key) -> Option<Ordering> {
        Some(self.cmp(other))
    }
}

impl Ord for Key {
    ghost cmp = { key_cmp };

    ghost total = { key_cmp_total };

    ghost matches_partial_cmp = { λ x y. refl };

    ghost matches_eq = { λ x y. refl };

    fn cmp(&self, other: &Key) -> Ordering {
        match (self, other) {
            (Key::Int(a), Key::Int(b)) => a.cmp(b),
            (Key::Text(a), Key::Text(b)) => a.cmp(b),
            (Key::Uuid(a), Key::Uuid(b)) => a.cmp(b),
            _ => self.rank().cmp(&other.rank()),
        }
    }
}
