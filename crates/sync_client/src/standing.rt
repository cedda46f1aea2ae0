ghost use Rattle.std.specs.Prelude.{◌≡◌, ◌==◌, ◌||◌, not, List, length, IfOk};
ghost use Rattle.sync_model.specs.Clients as model;
ghost use Rattle.sync_exchange.specs.Profile.{the_profile};
ghost use Rattle.sync_client.specs.Seen.{Past, seen};

use crate::client::Client;
use crate::replica::Replica;
use sync_data::NoMemory;
use sync_disk::Disk;
use sync_rebase::PendingList;
use sync_subset::Subset;

impl<D: Disk> Client<D> {
    ghost use Rattle.sync_client.specs.Clients.{IsClientOf};

    /// Whether its file may hold changesets of version 2.
    pub fn is_second(&self) -> bool
        ensures { (records : List model.ClientRecord) → IsClientOf records self.now → result ≡ (model.client_of the_profile records).second }
    {
        self.replica.second
    }

    /// The tables that it named; none where it gets all.
    pub fn tables(&self) -> Result<Option<Subset>, NoMemory>
        ensures { (records : List model.ClientRecord) → IsClientOf records self.now → IfOk result (λ tables. tables ≡ (model.client_of the_profile records).subset) }
    {
        match &self.replica.subset {
            Some(tables) => Ok(Some(tables.copy()?)),
            None => Ok(None),
        }
    }

    /// Whether it began with a state, or made or took a changeset.
    pub fn has_begun(&self) -> bool
        ensures { (records : List model.ClientRecord) → IsClientOf records self.now
            → result ≡ (model.has_floor (model.client_of the_profile records).floor || (not (length (model.client_of the_profile records).made == 0) || not ((model.client_of the_profile records).cursor == 0))) }
    {
        self.replica.has_begun()
    }

    /// Its unsent changesets, from the oldest on.
    pub fn waiting(&self) -> &PendingList
        ensures { (records : List model.ClientRecord) → IsClientOf records self.now → result.now ≡ (model.client_of the_profile records).unsent }
    {
        &self.replica.unsent
    }
}

impl Replica {
    /// The same of what it keeps in memory.
    fn has_begun(&self) -> bool
        ensures { (past : Past) → length past.made ≡ self.now.count → result ≡ (model.has_floor self.now.floor || (not (length past.made == 0) || not (self.now.cursor == 0))) }
    {
        self.floor.is_some() || self.count != 0 || self.cursor != 0
    }
}
