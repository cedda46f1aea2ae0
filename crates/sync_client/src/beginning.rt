ghost use Rattle.std.specs.Prelude.{◌≡◌, ◌⊎◌, ◌≤◌, ◌<◌, ◌+◌, ◌∷◌, ◌||◌, List, ℕ, length, drop, Ok, Some, IfOk, IfSome, false, true};
ghost use Rattle.sync_model.specs.Clients as model;
ghost use Rattle.sync_model.specs.Files as files;
ghost use Rattle.sync_exchange.specs.Seen.{read_client};
ghost use Rattle.sync_client.specs.Keeping.{Keeps};
ghost use Rattle.sync_snapshot.specs.Grown.{lists_of};
ghost use Rattle.sync_client.specs.Parts.{Closes, Ended, Finds, FindsBody, FindsFloor, FindsRun, IsNoState, IsOfState, Named, OfState};
ghost use Rattle.sync_client.specs.Reading.{GrowsOn, MayGrow, ReadsOn};
ghost use Rattle.sync_client.specs.Seen.{Past, seen};

use crate::entries::{changes_of, exceeds};
use crate::refusal::ClientRefusal;
use crate::replica::Replica;
use byte_lists::ByteLists;
use std::alloc::Global;
use sync_data::{Changeset, NoMemory};
use sync_journal::{LONGEST, ReadRefusal};
use sync_records::{ClientRecord, RecordRefusal};
use sync_snapshot::{GrowRefusal, grown};

/// The tag of a part of a state, and that of its version (docs/FORMATS.md, "Records").
const PART: u8 = 11;

const FLOOR: u8 = 12;

/// What stands somewhere in a file: a part of a state, one that the form doesn't allow, or another record, or none.
#[derive(Drop)]
pub(crate) enum Found {
    Part(Changeset),
    BadPart,
    Other,
}

/// Whether the bytes have the tag of a part or a version.
pub(crate) fn is_of_state(bytes: &[u8]) -> bool
    ensures is { result ≡ true → IsOfState (read_client bytes.now) }
    ensures other { result ≡ false → IsNoState (read_client bytes.now) }
{
    match bytes {
        [] => false,
        [tag, ..] => *tag == PART || *tag == FLOOR,
    }
}

/// The version of a state, where the bytes are its record.
fn floor_of(alloc: Global, bytes: &[u8]) -> Result<Option<u32>, NoMemory>
    ensures { FindsFloor bytes.now result }
{
    match ClientRecord::record_of(alloc, bytes) {
        Ok(ClientRecord::Floor { version }) => Ok(Some(version)),
        Ok(
            ClientRecord::Born { .. }
            | ClientRecord::Named(_)
            | ClientRecord::Made { .. }
            | ClientRecord::Took { .. }
            | ClientRecord::Form
            | ClientRecord::Subset { .. }
            | ClientRecord::Part { .. }
            | ClientRecord::Resumed { .. }
            | ClientRecord::Waits { .. },
        ) => Ok(None),
        Err(RecordRefusal::BadRecord) => Ok(None),
        Err(RecordRefusal::NoMemory) => Err(NoMemory),
    }
}

/// The number of the part that a client wouldn't have written, where nothing follows these.
fn end_of(alloc: Global, run: &[Changeset]) -> Result<usize, NoMemory>
    requires { 1 ≤ length run.now }
    ensures number { IfOk result (λ number. Named (lists_of run.now) number ⊎ Ended (lists_of run.now) number) }
    ensures within { IfOk result (λ number. number < length run.now) }
{
    match grown(alloc, run) {
        Ok(_) => Ok(run.len() - 1),
        Err(GrowRefusal::BadPart { place }) => {
            let place = place as usize;
            if place < run.len() {
                Ok(place)
            } else {
                Ok(run.len() - 1)
            }
        }
        Err(GrowRefusal::NoMemory) => Err(NoMemory),
    }
}

/// The part of a state that these bytes are, where it may need the second form or not.
fn part_of(alloc: Global, bytes: &[u8], second: bool) -> Result<Found, NoMemory>
    ensures { Finds second bytes.now result }
{
    match bytes {
        [] => Ok(Found::Other),
        [tag, body @ ..] => {
            if *tag == PART {
                read_part(alloc, body, second)
            } else {
                Ok(Found::Other)
            }
        }
    }
}

/// The part of a state with that body.
fn read_part(alloc: Global, body: &[u8], second: bool) -> Result<Found, NoMemory>
    ensures { FindsBody second body.now result }
{
    if body.len() > LONGEST {
        return Err(NoMemory);
    }
    let changes = match changes_of(alloc, 0, 0, body) {
        Ok(changes) => changes,
        Err(
            ClientRefusal::BadBody {
                version: _,
                offset: _,
                rule: _,
            },
        ) => return Ok(Found::BadPart),
        Err(_) => return Err(NoMemory),
    };
    if exceeds(&changes, second) {
        return Ok(Found::BadPart);
    }
    Ok(Found::Part(changes))
}

/// The parts of a state from that place on.
fn run_from(
    alloc: Global,
    records: &ByteLists,
    place: usize,
    second: bool,
) -> Result<Vec<Changeset>, ReadRefusal>
    requires { place ≤ length records.now }
    ensures run { FindsRun second (drop place records.now) (λ n. drop (place + n) records.now) place result }
    ensures within { IfOk result (λ run. place + length run.items ≤ length records.now) }
{
    let mut run = Vec::new(alloc);
    for index in place..records.len() {
        match part_of(alloc, records.at(index), second) {
            Ok(Found::Part(changes)) => match run.push(changes) {
                Ok(()) => {}
                Err(_) => return Err(ReadRefusal::NoMemory),
            },
            Ok(Found::BadPart) => return Err(ReadRefusal::BadRecord { place: index }),
            Ok(Found::Other) => return Ok(run),
            Err(NoMemory) => return Err(ReadRefusal::NoMemory),
        }
    }
    Ok(run)
}

impl Replica {
    /// Whether it wrote nothing yet but its uuid, a form and parts of a state.
    pub(crate) fn is_blank(&self) -> bool
        ensures { (past : Past) → length past.made ≡ self.now.count → result ≡ files.is_blank (seen past self.now) }
    {
        self.id.is_some()
            && self.subset.is_none()
            && self.floor.is_none()
            && self.ident == 0
            && self.count == 0
    }

    /// Whether a part may need the second form, in the front of a short file or not.
    fn allows(&self, within: bool) -> bool
        ensures { result ≡ (within || self.now.second) }
    {
        within || self.second
    }

    /// Whether no unsent changeset is of a base beyond that version.
    fn is_behind(&self, version: u32) -> bool
        ensures { result ≡ files.all_behind version self.now.unsent }
    {
        for place in 0..self.unsent.len() {
            let Some(unsent) = self.unsent.get(place) else {
                return true;
            };
            if unsent.base() > version {
                return false;
            }
        }
        true
    }

    /// Begins with the state of these parts, where the bytes behind them are its version; within the front of a short file
    /// nothing may be unsent beyond that. Else the number of the first that a client wouldn't have written, counted from 0 at
    /// the first part.
    fn close(
        &mut self,
        alloc: Global,
        run: &[Changeset],
        bytes: &[u8],
        within: bool,
    ) -> Result<Option<usize>, NoMemory>
        ensures closes { Closes within self.old self.new (lists_of run.now) bytes.now result }
        ensures within { IfOk result (λ refused. IfSome refused (λ number. number ≤ length run.now)) }
    {
        let floor = floor_of(alloc, bytes)?;
        match grown(alloc, run) {
            Ok(objects) => match floor {
                Some(version) => {
                    if within && !self.is_behind(version) {
                        return Ok(Some(run.len()));
                    }
                    self.floor = Some(version);
                    self.cursor = version;
                    self.objects = objects;
                    Ok(None)
                }
                None => Ok(Some(run.len())),
            },
            Err(GrowRefusal::BadPart { place }) => {
                let place = place as usize;
                if place < run.len() {
                    Ok(Some(place))
                } else {
                    Ok(Some(run.len()))
                }
            }
            Err(GrowRefusal::NoMemory) => Err(NoMemory),
        }
    }

    /// Reads the parts of a state from that place on, with its version behind them; answers the place behind that.
    pub(crate) fn admit_state(
        &mut self,
        alloc: Global,
        records: &ByteLists,
        place: usize,
    ) -> Result<usize, ReadRefusal>
        requires there { place < length records.now }
        requires of_state { OfState records.now place }
        ensures { (before : List model.ClientRecord) → Keeps before self.old → ReadsOn before self.new (drop place records.now) (λ n. drop (place + n) records.now) place result }
    {
        if !self.is_blank() {
            return Err(ReadRefusal::BadRecord { place });
        }
        self.admit_parts(alloc, records, place, false)
    }

    /// The same of a client that may take them: it is blank, or within the front of a short file.
    pub(crate) fn admit_parts(
        &mut self,
        alloc: Global,
        records: &ByteLists,
        place: usize,
        within: bool,
    ) -> Result<usize, ReadRefusal>
        requires there { place < length records.now }
        requires of_state { OfState records.now place }
        ensures { (past : Past) → MayGrow within past self.old → GrowsOn past self.old self.new (drop place records.now) (λ n. drop (place + n) records.now) place result }
    {
        let second = self.allows(within);
        let run = run_from(alloc, records, place, second)?;
        let (count, behind) = (records.len(), place + run.len());
        if behind == count {
            match end_of(alloc, run.as_slice()) {
                Ok(number) => {
                    return Err(ReadRefusal::BadRecord {
                        place: place + number,
                    });
                }
                Err(NoMemory) => return Err(ReadRefusal::NoMemory),
            }
        }
        match self.close(alloc, run.as_slice(), records.at(behind), within) {
            Ok(None) => Ok(behind + 1),
            Ok(Some(number)) => Err(ReadRefusal::BadRecord {
                place: place + number,
            }),
            Err(NoMemory) => Err(ReadRefusal::NoMemory),
        }
    }
}
