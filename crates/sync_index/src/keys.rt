ghost use Rattle.std.specs.Prelude.{◌≡◌, OnOk, OnErr};
ghost use Rattle.std.specs.FinSet as set;

use std::alloc::Global;
use std::collections::BTreeSet;
use std::marker::Model;
use sync_base::{Key, NoMemory};

/// The keys of the touched objects of one table.
#[derive(Drop)]
pub(crate) struct Keys {
    keys: BTreeSet<Key>,
}

impl Model for Keys {
    ghost use Rattle.sync_data.specs.Orders.{key_cmp};
    ghost use Rattle.sync_index.specs.Codes.{coded_keys};
    ghost use Rattle.std.specs.FinSet as set;

    ghost Value = { set.FinSet key_cmp };

    ghost coded = { coded_keys };

    ghost view = { λ a. set.from_list a.keys.keys };
}

impl Keys {
    /// No keys.
    pub(crate) fn new(alloc: Global) -> Keys
        ensures { result ≡ set.empty }
    {
        Keys {
            keys: BTreeSet::new(alloc),
        }
    }

    /// Whether the key is there. It takes no memory.
    pub(crate) fn contains(&self, key: &Key) -> bool
        ensures { result ≡ set.contains self.now key.now }
    {
        self.keys.contains(key)
    }

    /// Puts a key there.
    pub(crate) fn put(&mut self, key: Key) -> Result<(), NoMemory>
        ensures ok { OnOk result (self.new ≡ set.insert self.old key) }
        ensures unchanged { OnErr result (self.new ≡ self.old) }
    {
        if self.keys.insert(key).is_err() {
            return Err(NoMemory);
        }
        Ok(())
    }
}
