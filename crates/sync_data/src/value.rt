ghost use Rattle.std.specs.Prelude.{◌≡◌, IfOk, refl};
ghost use Rattle.std.specs.Ordering.{eq_by_cmp, as_partial_cmp};
ghost use Rattle.std.specs.Cmp.{partial_equiv_from_equiv, eq_by_cmp_equiv, partial_order_from_total};
ghost use Rattle.sync_data.specs.Orders.{value_cmp, value_cmp_total, value_rank};

use super::blob::Blob;
use super::key::{Id, Key};
use super::memory::NoMemory;
use super::name::Name;
use super::text::Text;
use super::time::Time;
use std::alloc::AllocError;
use std::cmp::Ordering;

/// A value of a cell, or an element of a list, set or dictionary. A link names an object by its table and key.
pub enum Value {
    Null,
    Int(i64),
    Bool(bool),
    Text(Text),
    Bytes(Blob),
    Time(Time),
    Uuid(Id),
    Link { table: Name, key: Key },
}

impl Drop for Value {
    fn drop(self) {
        match self {
            Value::Null => {}
            Value::Int(_) => {}
            Value::Bool(_) => {}
            Value::Text(_) => {}
            Value::Bytes(_) => {}
            Value::Time(_) => {}
            Value::Uuid(_) => {}
            Value::Link { table: _, key: _ } => {}
        }
    }
}

impl Value {
    /// An equal value.
    pub fn copy(&self) -> Result<Value, NoMemory>
        ensures equal { IfOk result (λ copy. copy ≡ self.now) }
    {
        match self {
            Value::Null => Ok(Value::Null),
            Value::Int(n) => Ok(Value::Int(*n)),
            Value::Bool(b) => Ok(Value::Bool(*b)),
            Value::Text(text) => Ok(Value::Text(text.copy()?)),
            Value::Bytes(bytes) => Ok(Value::Bytes(bytes.copy()?)),
            Value::Time(time) => Ok(Value::Time(*time)),
            Value::Uuid(id) => Ok(Value::Uuid(*id)),
            Value::Link { table, key } => Ok(Value::Link {
                table: table.copy()?,
                key: key.copy()?,
            }),
        }
    }

    fn rank(&self) -> u8
        ensures { result ≡ value_rank self.now }
    {
        match self {
            Value::Null => 0,
            Value::Int(_) => 1,
            Value::Bool(_) => 2,
            Value::Text(_) => 3,
            Value::Bytes(_) => 4,
            Value::Time(_) => 5,
            Value::Uuid(_) => 6,
            Value::Link { .. } => 7,
        }
    }
}

impl Clone for Value {
    ghost is_clone = { λ x y. y ≡ x };

    ghost is_infallible = { λ _. ⊥ };

    fn clone(&self) -> Result<Value, AllocError> {
        match self.copy() {
            Ok(copy) => Ok(copy),
            Err(_) => Err(AllocError),
        }
    }
}

impl PartialEq for Value {
    ghost eq = { eq_by_cmp value_cmp };

    ghost laws = { partial_equiv_from_equiv (eq_by_cmp_equiv value_cmp_total) };

    fn eq(&self, other: &Value) -> bool {
        self.cmp(other).is_eq()
    }
}

impl Eq for Value {
    ghost laws = { eq_by_cmp_equiv value_cmp_total };
}

impl PartialOrd for Value {
    ghost partial_cmp = { as_partial_cmp value_cmp };

    ghost laws = { partial_order_from_total value_cmp_total };

    fn partial_cmp(&self, other: &Value) -> Option<Ordering> {
        Some(self.cmp(other))
    }
}

impl Ord for Value {
    ghost cmp = { value_cmp };

    ghost total = { value_cmp_total };

    ghost matches_partial_cmp = { λ x y. refl };

    ghost matches_eq = { λ x y. refl };

    fn cmp(&self, other: &Value) -> Ordering {
        match (self, other) {
            (Value::Int(a), Value::Int(b)) => a.cmp(b),
            (Value::Bool(a), Value::Bool(b)) => a.cmp(b),
            (Value::Text(a), Value::Text(b)) => a.cmp(b),
            (Value::Bytes(a), Value::Bytes(b)) => a.cmp(b),
            (Value::Time(a), Value::Time(b)) => a.cmp(b),
            (Value::Uuid(a), Value::Uuid(b)) => a.cmp(b),
            (Value::Link { table: s, key: a }, Value::Link { table: t, key: b }) => {
                s.cmp(t).then(a.cmp(b))
            }
            _ => self.rank().cmp(&other.rank()),
        }
    }
}
