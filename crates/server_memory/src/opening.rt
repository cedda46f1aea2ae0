ghost use Rattle.std.specs.Prelude.{◌≡◌, ◌≤◌, ◌∷◌, [], Ok, length, drop, map, true, IfOk};
ghost use Rattle.sync_exchange.specs.Profile.{the_profile};
ghost use Rattle.sync_exchange.specs.Seen.{read_server, server_seen};
ghost use Rattle.sync_model.specs.Servers as model;
ghost use Rattle.sync_model.specs.Fronts.{begins_trimmed, front_of, is_form};
ghost use Rattle.server_memory.specs.Fronting.{Fronts, seen};
ghost use Rattle.server_memory.specs.Opening.{Admits, ReadsFile, ReadsFront, ReadsOne, ReadsRest, is_trimmed};

use crate::history::LAST;
use crate::kept::Kept;
use crate::kinds::{Found, as_form, records_in};
use crate::merging::ChangeHead;
use crate::refusal::ChangeRefusal;
use byte_lists::ByteLists;
use std::alloc::Global;
use sync_base::{Id, Ident, NoMemory};
use sync_journal::{LONGEST, ReadRefusal};
use sync_records::{RecordRefusal, ServerRecord};

impl Kept {
    /// Reads the records of a file.
    pub fn of(alloc: Global, files: &ByteLists) -> Result<Kept, ReadRefusal>
        ensures { ReadsFile files.now result }
    {
        let (mut kept, size) = Kept::front(alloc, files)?;
        kept.admit_all(alloc, files, size)?;
        Ok(kept)
    }

    /// Reads the records with which a trimmed file begins, and answers how many they are. A file that has its whole
    /// history has none of them.
    fn front(alloc: Global, files: &ByteLists) -> Result<(Kept, usize), ReadRefusal>
        ensures { ReadsFront files.now result }
    {
        match is_trimmed(alloc, files) {
            Ok(true) => Kept::trimmed_front(alloc, files),
            Ok(false) => match Kept::new(alloc) {
                Ok(kept) => Ok((kept, 0)),
                Err(NoMemory) => Err(ReadRefusal::NoMemory),
            },
            Err(NoMemory) => Err(ReadRefusal::NoMemory),
        }
    }

    /// Reads the records with which a trimmed file begins.
    fn trimmed_front(alloc: Global, files: &ByteLists) -> Result<(Kept, usize), ReadRefusal>
        requires { is_trimmed (map read_server files.now) ≡ true }
        ensures { ReadsFront files.now result }
    {
        let records = match records_in(alloc, files) {
            Ok(records) => records,
            Err(NoMemory) => return Err(ReadRefusal::NoMemory),
        };
        Kept::front_in(alloc, records.as_slice())
    }

    /// The same of records that were read.
    fn front_in(alloc: Global, records: &[Found]) -> Result<(Kept, usize), ReadRefusal>
        requires { is_trimmed (seen records.now) ≡ true }
        ensures { Fronts result (front_of the_profile (seen records.now)) }
    {
        match records {
            [] => Err(ReadRefusal::NoMemory),
            [first, ..] => {
                if as_form(first) {
                    Kept::front_parts(alloc, records, 1, true)
                } else {
                    Kept::front_parts(alloc, records, 0, false)
                }
            }
        }
    }

    /// Reads the records from a place on one after the other, up to the first that a server wouldn't have written after
    /// those before it.
    fn admit_all(
        &mut self,
        alloc: Global,
        files: &ByteLists,
        first: usize,
    ) -> Result<(), ReadRefusal>
        requires { first ≤ length files.now }
        ensures { ReadsRest (drop first files.now) first self.old self.new result }
    {
        for place in first..files.len() {
            match self.read(alloc, files.at(place)) {
                Ok(true) => {}
                Ok(false) => return Err(ReadRefusal::BadRecord { place }),
                Err(NoMemory) => return Err(ReadRefusal::NoMemory),
            }
        }
        Ok(())
    }

    /// Whether the bytes are a record that a server would have written; then it is kept too.
    fn read(&mut self, alloc: Global, bytes: &[u8]) -> Result<bool, NoMemory>
        ensures { ReadsOne self.old self.new bytes.now result }
    {
        match ServerRecord::record_of(alloc, bytes) {
            Ok(found) => {
                let admitted = self.admit(alloc, &found);
                drop(found);
                admitted
            }
            Err(RecordRefusal::BadRecord) => Ok(false),
            Err(RecordRefusal::NoMemory) => Err(NoMemory),
        }
    }

    /// Whether a server would have written the record after those before it; then it is kept too.
    fn admit(&mut self, alloc: Global, found: &ServerRecord) -> Result<bool, NoMemory>
        ensures { Admits self.old self.new (server_seen found.now) result }
    {
        match found {
            ServerRecord::Client { id } => self.admit_client(alloc, *id),
            ServerRecord::Entry {
                origin,
                number,
                base,
                ms,
                body,
            } => {
                let head = ChangeHead {
                    number: *number,
                    base: *base,
                    ms: *ms,
                };
                self.admit_change(alloc, *origin, head, body.bytes())
            }
            ServerRecord::Form => Ok(self.admit_form()),
            ServerRecord::Retired { ident, by } => self.admit_retired(alloc, *ident, *by),
            ServerRecord::Settled { ident, settled } => Ok(self.admit_settled(*ident, *settled)),
            ServerRecord::Part { .. } => Ok(false),
            ServerRecord::Floor { .. } => Ok(false),
            ServerRecord::Count { .. } => Ok(false),
            ServerRecord::Carried { .. } => Ok(false),
            ServerRecord::Past { .. } => Ok(false),
        }
    }

    fn admit_form(&mut self) -> bool
        ensures { Admits self.old self.new model.Form (Ok result) }
    {
        if self.history.second() {
            return false;
        }
        self.history.upgrade();
        true
    }

    fn admit_client(&mut self, alloc: Global, id: Id) -> Result<bool, NoMemory>
        ensures { Admits self.old self.new (model.Client id) result }
    {
        if self.history.ident_of(&id).is_some() {
            return Ok(false);
        }
        if self.history.given() == LAST {
            return Ok(false);
        }
        self.history.bind(alloc, id)?;
        Ok(true)
    }

    fn admit_retired(&mut self, alloc: Global, ident: Ident, by: Ident) -> Result<bool, NoMemory>
        ensures { Admits self.old self.new (model.Retired ident by) result }
    {
        match self.retirement(ident, by) {
            Ok(retirement) => {
                if !retirement.is_new {
                    return Ok(false);
                }
            }
            Err(_) => return Ok(false),
        }
        self.history.retire(alloc, ident, by)?;
        Ok(true)
    }

    fn admit_settled(&mut self, ident: Ident, settled: u32) -> bool
        ensures { Admits self.old self.new (model.Settled ident settled) (Ok result) }
    {
        let mark = match self.history.at(ident) {
            Some(given) => given.mark(),
            None => return false,
        };
        if settled <= mark || settled > self.history.len() {
            return false;
        }
        self.history.settle_at(ident, settled);
        true
    }

    fn admit_change(
        &mut self,
        alloc: Global,
        origin: Ident,
        head: ChangeHead,
        body: &[u8],
    ) -> Result<bool, NoMemory>
        ensures { Admits self.old self.new (model.Entry origin head.number head.base head.ms body.now) result }
    {
        let count = match self.history.at(origin) {
            Some(given) => given.count(),
            None => return Ok(false),
        };
        if head.number as u64 != count as u64 + 1 {
            return Ok(false);
        }
        if body.len() > LONGEST {
            return Err(NoMemory);
        }
        match self.merge(alloc, origin, head, body) {
            Ok(form) => Ok(!form),
            Err(ChangeRefusal::NoMemory) => Err(NoMemory),
            Err(ChangeRefusal::Refused(_)) => Ok(false),
        }
    }
}

/// Whether the bytes are a record with which the front of a trimmed file begins, behind its Form.
fn begins(alloc: Global, bytes: &[u8]) -> Result<bool, NoMemory>
    ensures { IfOk result (λ answer. answer ≡ begins_trimmed the_profile (read_server bytes.now ∷ [])) }
{
    match ServerRecord::record_of(alloc, bytes) {
        Ok(ServerRecord::Part { .. }) => Ok(true),
        Ok(ServerRecord::Floor { .. }) => Ok(true),
        Ok(_) => Ok(false),
        Err(RecordRefusal::BadRecord) => Ok(false),
        Err(RecordRefusal::NoMemory) => Err(NoMemory),
    }
}

/// Whether the bytes are a Form.
fn starts_second(alloc: Global, bytes: &[u8]) -> Result<bool, NoMemory>
    ensures { IfOk result (λ answer. answer ≡ is_form the_profile (read_server bytes.now)) }
{
    match ServerRecord::record_of(alloc, bytes) {
        Ok(ServerRecord::Form) => Ok(true),
        Ok(_) => Ok(false),
        Err(RecordRefusal::BadRecord) => Ok(false),
        Err(RecordRefusal::NoMemory) => Err(NoMemory),
    }
}

/// Whether the records are those of a trimmed file.
fn is_trimmed(alloc: Global, files: &ByteLists) -> Result<bool, NoMemory>
    ensures { IfOk result (λ answer. answer ≡ is_trimmed (map read_server files.now)) }
{
    let Some(first) = files.get(0) else {
        return Ok(false);
    };
    if begins(alloc, first)? {
        return Ok(true);
    }
    let Some(second) = files.get(1) else {
        return Ok(false);
    };
    if starts_second(alloc, first)? {
        return begins(alloc, second);
    }
    Ok(false)
}
