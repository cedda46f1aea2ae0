ghost use Rattle.std.specs.Prelude.{◌≡◌, IfOk};
ghost use Rattle.sync_index.specs.Spots.{LieAt};

use std::alloc::Global;
use std::marker::Model;
use std::sync::Arc;
use sync_base::{Entry, NoMemory};
use sync_index::shared_spot;

/// An entry, and the spot of a filter at which all objects of its changes lie, where it is known.
#[derive(Drop)]
struct Spotted {
    spot: Option<u8>,
    entry: Entry,
}

impl Model for Spotted {
    ghost use Rattle.sync_data.specs.declared.entry.Entry.{Entry};

    ghost Value = { Entry };

    ghost view = { λ a. a.entry };

    ghost use Rattle.sync_index.specs.Spots.{LieAt};

    ghost invariant = { λ a. LieAt a.spot a.entry.changes.instrs };
}

impl Spotted {
    fn spot(&self) -> Option<u8>
        ensures { LieAt result self.now.changes.instrs }
    {
        self.spot
    }

    fn entry(&self) -> &Entry
        ensures { result.now ≡ self.now }
    {
        &self.entry
    }
}

/// An entry that several lists hold without a copy. It never changes.
#[derive(Drop)]
pub struct SharedEntry {
    spotted: Arc<Spotted>,
}

impl Model for SharedEntry {
    ghost use Rattle.sync_data.specs.declared.entry.Entry.{Entry};

    ghost Value = { Entry };

    ghost view = { λ a. a.spotted.value };
}

impl SharedEntry {
    /// The entry, for the first to hold it.
    pub fn new(alloc: Global, entry: Entry) -> Result<SharedEntry, NoMemory>
        ensures { IfOk result (λ made. made ≡ entry) }
    {
        let spot = shared_spot(entry.changes.instrs());
        match Arc::new(alloc, Spotted { spot, entry }) {
            Ok(spotted) => Ok(SharedEntry { spotted }),
            Err(_) => Err(NoMemory),
        }
    }

    /// The same entry, for one more to hold it. No entry is copied.
    pub fn share(&self) -> Result<SharedEntry, NoMemory>
        ensures { IfOk result (λ shared. shared ≡ self.now) }
    {
        match self.spotted.clone() {
            Ok(spotted) => Ok(SharedEntry { spotted }),
            Err(_) => Err(NoMemory),
        }
    }

    /// The spot of a filter at which all objects of its changes lie, where it is known.
    pub(crate) fn spot(&self) -> Option<u8>
        ensures { LieAt result self.now.changes.instrs }
    {
        self.spotted.spot()
    }

    /// The entry.
    pub fn entry(&self) -> &Entry
        ensures { result.now ≡ self.now }
    {
        self.spotted.entry()
    }
}
