ghost use Rattle.std.specs.Prelude.{◌≡◌, OnOk, OnErr};
ghost use Rattle.std.specs.FinMap as map;
ghost use Rattle.sync_index.specs.Touched.{holds, is_one, HoldsMore};

use super::objects::Objects;
use std::alloc::Global;
use std::marker::Model;
use sync_base::{Key, Name, NoMemory, same_object};

/// The objects of an index. The first stands in place: most lists are about one object, which needs no set then.
#[derive(Drop)]
pub(crate) struct Held {
    first: Option<(Name, Key)>,
    others: Objects,
}

impl Model for Held {
    ghost use Rattle.std.specs.FinMap as map;
    ghost use Rattle.std.specs.FinSet as set;
    ghost use Rattle.sync_data.specs.Orders.{name_cmp, key_cmp};
    ghost use Rattle.sync_index.specs.Codes.{coded_objects};
    ghost use Rattle.sync_index.specs.Touched.{with_first};

    ghost Value = { map.FinMap name_cmp (set.FinSet key_cmp) };

    ghost coded = { coded_objects };

    ghost view = { λ a. with_first a.first a.others };
}

impl Held {
    /// No objects.
    pub(crate) fn new(alloc: Global) -> Held
        ensures { result ≡ map.empty }
    {
        Held {
            first: None,
            others: Objects::new(alloc),
        }
    }

    /// Whether the object is there. It takes no memory.
    pub(crate) fn contains(&self, table: &Name, key: &Key) -> bool
        ensures { result ≡ holds self.now (table.now, key.now) }
    {
        is_first(&self.first, table, key) || self.others.contains(table, key)
    }

    /// Puts an object there.
    pub(crate) fn put(&mut self, table: &Name, key: Key) -> Result<(), NoMemory>
        ensures ok { OnOk result (HoldsMore (table.now, key) self.old self.new) }
        ensures unchanged { OnErr result (self.new ≡ self.old) }
    {
        if self.first.is_none() {
            self.first = Some((table.copy()?, key));
            return Ok(());
        }
        if is_first(&self.first, table, &key) {
            return Ok(());
        }
        self.others.put(table, key)
    }
}

fn is_first(first: &Option<(Name, Key)>, table: &Name, key: &Key) -> bool
    ensures { result ≡ is_one (table.now, key.now) first.now }
{
    match first {
        Some((name, held)) => same_object(table, key, name, held),
        None => false,
    }
}
