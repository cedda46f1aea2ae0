ghost use Rattle.std.specs.Prelude.{◌<◌, ◌+◌, List, drop, length, IfOk, Some, None, true, false};
ghost use Rattle.sync_model.specs.Clients as model;
ghost use Rattle.sync_model.specs.Limits.{ClientLists};
ghost use Rattle.sync_exchange.specs.Profile.{the_profile};
ghost use Rattle.sync_exchange.specs.Seen.{client_seen};
ghost use Rattle.sync_client.specs.Keeping.{Keeps};
ghost use Rattle.sync_client.specs.Opening.{Admits, IsEmpty, IsPast};
ghost use Rattle.sync_client.specs.Reading.{ReadsFile, ReadsOn, ReadsOne};
ghost use Rattle.sync_client.specs.Seen.{Past, seen};

use crate::beginning::is_of_state;
use crate::entries::changes_of;
use crate::front::is_of_front;
use crate::refusal::ClientRefusal;
use crate::replica::Replica;
use byte_lists::ByteLists;
use std::alloc::Global;
use sync_data::{Ident, NoMemory};
use sync_journal::{LONGEST, ReadRefusal};
use sync_rebase::{PendingList, Unsent};
use sync_records::{ClientRecord, RecordRefusal};
use sync_store::Store;
use sync_subset::Subset;

impl Replica {
    /// No records.
    pub(crate) fn new(alloc: Global) -> Result<Replica, NoMemory>
        ensures { IfOk result IsEmpty }
    {
        match Store::new(alloc) {
            Ok(objects) => Ok(Replica {
                id: None,
                ident: 0,
                second: false,
                subset: None,
                floor: None,
                cursor: 0,
                count: 0,
                unsent: PendingList::new(alloc),
                objects,
            }),
            Err(_) => Err(NoMemory),
        }
    }

    /// Whether a client would have written the record after those before it; then it stands for it too.
    pub(crate) fn admit(&mut self, alloc: Global, added: &ClientRecord) -> Result<bool, NoMemory>
        ensures { (past : Past) → IsPast past self.old → ClientLists the_profile (seen past self.old) → Admits past self.old self.new (client_seen added.now) result }
    {
        match added {
            ClientRecord::Born { id } => {
                if self.id.is_some() {
                    return Ok(false);
                }
                self.id = Some(*id);
                Ok(true)
            }
            ClientRecord::Named(named) => {
                if self.id.is_none() || self.ident != 0 {
                    return Ok(false);
                }
                self.ident = named.ident();
                Ok(true)
            }
            ClientRecord::Made { number, ms, body } => {
                self.admit_made(alloc, *number, *ms, body.bytes())
            }
            ClientRecord::Took {
                origin,
                number,
                ms,
                body,
            } => self.admit_took(alloc, *origin, *number, *ms, body.bytes()),
            ClientRecord::Form => {
                if self.id.is_none() || self.second {
                    return Ok(false);
                }
                self.second = true;
                Ok(true)
            }
            ClientRecord::Subset { tables } => self.admit_subset(tables),
            // Those are read together (`admit_state`, `admit_front`).
            ClientRecord::Part { .. } | ClientRecord::Floor { .. } | ClientRecord::Resumed { .. } =>
                Err(NoMemory),
            ClientRecord::Waits { .. } => Ok(false),
        }
    }

    fn admit_subset(&mut self, tables: &Subset) -> Result<bool, NoMemory>
        ensures { (past : Past) → IsPast past self.old → Admits past self.old self.new (model.Subset tables.now) result }
    {
        if self.id.is_none() || self.subset.is_some() || self.is_late() {
            return Ok(false);
        }
        self.subset = Some(tables.copy()?);
        Ok(true)
    }

    fn admit_took(
        &mut self,
        alloc: Global,
        origin: Ident,
        number: u32,
        ms: u64,
        body: &[u8],
    ) -> Result<bool, NoMemory>
        ensures { (past : Past) → IsPast past self.old → ClientLists the_profile (seen past self.old) → Admits past self.old self.new (model.Took origin number ms body.now) result }
    {
        if self.ident == 0 || self.cursor == u32::MAX || origin == 0 || number == 0 {
            return Ok(false);
        }
        if body.len() > LONGEST {
            return Err(NoMemory);
        }
        match self.take_entry(alloc, origin, number, ms, body) {
            Ok(()) => Ok(true),
            Err(ClientRefusal::NoMemory) => Err(NoMemory),
            Err(_) => Ok(false),
        }
    }

    fn admit_made(
        &mut self,
        alloc: Global,
        number: u32,
        ms: u64,
        body: &[u8],
    ) -> Result<bool, NoMemory>
        ensures { (past : Past) → IsPast past self.old → Admits past self.old self.new (model.Made number ms body.now) result }
    {
        if self.id.is_none() || self.count == u32::MAX || number != self.count + 1 {
            return Ok(false);
        }
        if body.len() > LONGEST {
            return Err(NoMemory);
        }
        let changes = match changes_of(alloc, 0, ms, body) {
            Ok(changes) => changes,
            Err(ClientRefusal::NoMemory) => return Err(NoMemory),
            Err(_) => return Ok(false),
        };
        if self.is_beyond(&changes) || self.outside(&changes).is_some() {
            return Ok(false);
        }
        match self.act(&changes) {
            Ok(()) => {}
            Err(ClientRefusal::Break { place: _, code: _ }) => return Ok(false),
            Err(_) => return Err(NoMemory),
        }
        let unsent = Unsent::made(number, self.cursor, changes)?;
        self.unsent.push(unsent)?;
        self.count = number;
        Ok(true)
    }
}

impl Replica {
    /// What records stand for, read one after the other up to the first that a client wouldn't have written after those
    /// before it.
    pub(crate) fn of(alloc: Global, records: &ByteLists) -> Result<Replica, ReadRefusal>
        ensures { ReadsFile records.now result }
    {
        let Ok(mut replica) = Replica::new(alloc) else {
            return Err(ReadRefusal::NoMemory);
        };
        let mut place = 0;
        while place < records.len() {
            match replica.read_at(alloc, records, place) {
                Ok(next) => place = next,
                Err(refusal) => return Err(refusal),
            }
        }
        Ok(replica)
    }

    /// Reads the record at that place, or the state or the front of a short file that begins there; answers the place
    /// behind it.
    fn read_at(
        &mut self,
        alloc: Global,
        records: &ByteLists,
        place: usize,
    ) -> Result<usize, ReadRefusal>
        requires there { place < length records.now }
        requires few { place + 1 < 18446744073709551616 }
        ensures { (before : List model.ClientRecord) → Keeps before self.old → ReadsOn before self.new (drop place records.now) (λ n. drop (place + n) records.now) place result }
    {
        let bytes = records.at(place);
        if is_of_state(bytes) {
            return self.admit_state(alloc, records, place);
        }
        if is_of_front(bytes) {
            return self.admit_front(alloc, records, place);
        }
        match self.read(alloc, bytes) {
            Ok(true) => Ok(place + 1),
            Ok(false) => Err(ReadRefusal::BadRecord { place }),
            Err(NoMemory) => Err(ReadRefusal::NoMemory),
        }
    }

    /// Whether the bytes are a record that a client would have written; then it stands for it too. Most are entries, whose
    /// bytes aren't copied.
    fn read(&mut self, alloc: Global, bytes: &[u8]) -> Result<bool, NoMemory>
        ensures { (records : List model.ClientRecord) → Keeps records self.old → ReadsOne records self.new bytes.now result }
    {
        if let Some(took) = ClientRecord::took_in(bytes) {
            return self.admit_took(alloc, took.origin, took.number, took.ms, took.body);
        }
        match ClientRecord::record_of(alloc, bytes) {
            Ok(found) => {
                let admitted = self.admit(alloc, &found);
                drop(found);
                admitted
            }
            Err(RecordRefusal::BadRecord) => Ok(false),
            Err(RecordRefusal::NoMemory) => Err(NoMemory),
        }
    }
}
