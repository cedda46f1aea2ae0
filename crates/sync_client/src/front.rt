ghost use Rattle.std.specs.Prelude.{◌≡◌, ◌<◌, ◌+◌, ◌∷◌, List, ℕ, length, drop, false, true, Some};
ghost use Rattle.sync_model.specs.Clients as model;
ghost use Rattle.sync_exchange.specs.Seen.{read_client};
ghost use Rattle.sync_client.specs.Keeping.{Keeps};
ghost use Rattle.sync_client.specs.Fronts.{Behind, FindsResumed, IsOfFront, Reads, Tables, Waits, WithinFront};
ghost use Rattle.sync_client.specs.Reading.{GrowsOn, ReadsOn};
ghost use Rattle.sync_client.specs.Seen.{Past};

use crate::beginning::is_of_state;
use crate::entries::changes_of;
use crate::refusal::ClientRefusal;
use crate::replica::Replica;
use byte_lists::ByteLists;
use std::alloc::Global;
use sync_data::{Changeset, NoMemory};
use sync_journal::{LONGEST, ReadRefusal};
use sync_rebase::Unsent;
use sync_records::{ClientRecord, RecordRefusal};
use sync_subset::Subset;

/// The tag of the record with which the front of a short file begins (docs/FORMATS.md, "Records").
const RESUMED: u8 = 16;

/// Whether the bytes have that tag.
pub(crate) fn is_of_front(bytes: &[u8]) -> bool
    ensures { result ≡ true → IsOfFront (read_client bytes.now) }
{
    match bytes {
        [] => false,
        [tag, ..] => *tag == RESUMED,
    }
}

/// The two counts of a front, where the bytes are its first record.
fn resumed_of(alloc: Global, bytes: &[u8]) -> Result<Option<(u32, u32)>, NoMemory>
    ensures { FindsResumed bytes.now result }
{
    match ClientRecord::record_of(alloc, bytes) {
        Ok(ClientRecord::Resumed { number, waiting }) => Ok(Some((number, waiting))),
        Ok(
            ClientRecord::Born { .. }
            | ClientRecord::Named(_)
            | ClientRecord::Made { .. }
            | ClientRecord::Took { .. }
            | ClientRecord::Form
            | ClientRecord::Subset { .. }
            | ClientRecord::Part { .. }
            | ClientRecord::Floor { .. }
            | ClientRecord::Waits { .. },
        ) => Ok(None),
        Err(RecordRefusal::BadRecord) => Ok(None),
        Err(RecordRefusal::NoMemory) => Err(NoMemory),
    }
}

/// A changeset's instructions, or none where they can't be read.
fn read_body(alloc: Global, ms: u64, body: &[u8]) -> Result<Option<Changeset>, NoMemory>
    ensures { Reads ms body.now result }
{
    if body.len() > LONGEST {
        return Err(NoMemory);
    }
    match changes_of(alloc, 0, ms, body) {
        Ok(changes) => Ok(Some(changes)),
        Err(
            ClientRefusal::BadBody {
                version: _,
                offset: _,
                rule: _,
            },
        ) => Ok(None),
        Err(_) => Err(NoMemory),
    }
}

impl Replica {
    /// Reads the front of a short file from that place on: how many of its transactions the client took from the history
    /// and how many are unsent, its tables, those that are unsent, its objects and its cursor. Answers the place behind it.
    pub(crate) fn admit_front(
        &mut self,
        alloc: Global,
        records: &ByteLists,
        place: usize,
    ) -> Result<usize, ReadRefusal>
        requires there { place < length records.now }
        requires few { place + 1 < 18446744073709551616 }
        requires of_front { (bytes : List ℕ) (rest : List (List ℕ)) → drop place records.now ≡ bytes ∷ rest → IsOfFront (read_client bytes) }
        ensures { (before : List model.ClientRecord) → Keeps before self.old → ReadsOn before self.new (drop place records.now) (λ n. drop (place + n) records.now) place result }
    {
        let (number, waiting) = match resumed_of(alloc, records.at(place)) {
            Ok(Some(counts)) => counts,
            Ok(None) => return Err(ReadRefusal::BadRecord { place }),
            Err(NoMemory) => return Err(ReadRefusal::NoMemory),
        };
        if !self.is_blank() || waiting > u32::MAX - number || place + 1 == records.len() {
            return Err(ReadRefusal::BadRecord { place });
        }
        self.count = number;
        self.admit_waiting(alloc, records, place + 1, waiting)
    }

    /// The same behind its first record, where so many unsent changesets are to come.
    fn admit_waiting(
        &mut self,
        alloc: Global,
        records: &ByteLists,
        place: usize,
        waiting: u32,
    ) -> Result<usize, ReadRefusal>
        requires there { place < length records.now }
        ensures { (past : Past) → WithinFront waiting past self.old → GrowsOn past self.old self.new (drop place records.now) (λ n. drop (place + n) records.now) place result }
    {
        let mut owed = waiting;
        for next in place..records.len() {
            let bytes = records.at(next);
            if is_of_state(bytes) {
                if owed != 0 {
                    return Err(ReadRefusal::BadRecord { place: next });
                }
                return self.admit_parts(alloc, records, next, true);
            }
            if next + 1 == records.len() {
                return Err(ReadRefusal::BadRecord { place: next });
            }
            match self.admit_behind(alloc, bytes, owed) {
                Ok(Some(left)) => owed = left,
                Ok(None) => return Err(ReadRefusal::BadRecord { place: next }),
                Err(NoMemory) => return Err(ReadRefusal::NoMemory),
            }
        }
        // No record is left only where none was there.
        Err(ReadRefusal::NoMemory)
    }

    /// Takes a record of the front that isn't of its state: how many unsent changesets are to come then, or none where a
    /// client wouldn't have written it there.
    fn admit_behind(
        &mut self,
        alloc: Global,
        bytes: &[u8],
        owed: u32,
    ) -> Result<Option<u32>, NoMemory>
        ensures { (past : Past) → WithinFront owed past self.old → Behind past self.old self.new bytes.now result }
    {
        match ClientRecord::record_of(alloc, bytes) {
            Ok(ClientRecord::Subset { tables }) => {
                if self.admit_tables(&tables)? {
                    Ok(Some(owed))
                } else {
                    Ok(None)
                }
            }
            Ok(
                ClientRecord::Waits {
                    number,
                    base,
                    ms,
                    body,
                    current,
                },
            ) => {
                if owed != 0
                    && self.admit_unsent(
                        alloc,
                        (number, base),
                        ms,
                        body.bytes(),
                        current.bytes(),
                    )?
                {
                    Ok(Some(owed - 1))
                } else {
                    Ok(None)
                }
            }
            Ok(
                ClientRecord::Born { .. }
                | ClientRecord::Named(_)
                | ClientRecord::Made { .. }
                | ClientRecord::Took { .. }
                | ClientRecord::Form
                | ClientRecord::Resumed { .. },
            ) => Ok(None),
            // Those are read together (`admit_parts`).
            Ok(ClientRecord::Part { .. } | ClientRecord::Floor { .. }) => Err(NoMemory),
            Err(RecordRefusal::BadRecord) => Ok(None),
            Err(RecordRefusal::NoMemory) => Err(NoMemory),
        }
    }

    /// The client's tables, where it has none yet and nothing unsent.
    fn admit_tables(&mut self, tables: &Subset) -> Result<bool, NoMemory>
        ensures { Tables tables.now self.old self.new result }
    {
        if self.subset.is_some() || !self.unsent.is_empty() {
            return Ok(false);
        }
        self.subset = Some(tables.copy()?);
        Ok(true)
    }

    /// An unsent changeset: its number and base, its time, and its bytes as it was made and as it was carried since.
    fn admit_unsent(
        &mut self,
        alloc: Global,
        numbers: (u32, u32),
        ms: u64,
        body: &[u8],
        current: &[u8],
    ) -> Result<bool, NoMemory>
        ensures { Waits numbers.0 numbers.1 ms body.now current.now self.old self.new result }
    {
        let (number, base) = numbers;
        if self.count == u32::MAX || number != self.count + 1 {
            return Ok(false);
        }
        let Some(original) = read_body(alloc, ms, body)? else {
            return Ok(false);
        };
        let Some(carried) = read_body(alloc, ms, current)? else {
            return Ok(false);
        };
        let unsent = Unsent::new(number, base, original, carried);
        self.unsent.push(unsent)?;
        self.count = number;
        Ok(true)
    }
}
