ghost use Rattle.std.specs.Prelude.{◌≡◌};

use std::alloc::AllocError;
use std::marker::Model;
use sum_list::Measured;
use sync_base::Value as Held;

/// An element of a list: a value. It has no length and no number, since it is found by its place alone.
#[derive(Drop)]
pub struct Element {
    value: Held,
}

impl Model for Element {
    ghost use Rattle.sync_data.specs.declared.value.Value.{Value as ValueSeen};
    ghost use Rattle.sync_cells.specs.Codes.{coded_value};

    ghost Value = { ValueSeen };

    ghost coded = { coded_value };

    ghost view = { λ e. e.value };
}

impl Element {
    /// The element with that value.
    pub(crate) fn new(value: Held) -> Element
        ensures { result ≡ value }
    {
        Element { value }
    }

    /// Its value.
    pub fn value(&self) -> &Held
        ensures { result.now ≡ self.now }
    {
        &self.value
    }

    /// Its value, out of it.
    pub(crate) fn into_value(self) -> Held
        ensures { result ≡ self }
    {
        let Element { value } = self;
        value
    }
}

impl Measured for Element {
    ghost before = { λ _. 0 };

    ghost after = { λ _. 0 };

    ghost first = { λ _. 0 };

    fn before(&self) -> u32 {
        0
    }

    fn after(&self) -> u32 {
        0
    }

    fn first(&self) -> u64 {
        0
    }
}

impl Clone for Element {
    ghost is_clone = { λ x y. y ≡ x };

    ghost is_infallible = { λ _. ⊥ };

    fn clone(&self) -> Result<Element, AllocError> {
        Ok(Element {
            value: self.value.clone()?,
        })
    }
}
