//! The records at the front of a trimmed file: the parts of a state, its version, the idents, their counts, the entries
//! of the history, and those that changes of an ident crossed.
ghost use Rattle.std.specs.Prelude.{◌≡◌, ◌≤◌, ◌<◌, ◌+◌, ◌-◌, [], length, IfOk, IfSome, true};
ghost use Rattle.std.specs.Option.{option_map};
ghost use Rattle.sync_exchange.specs.Profile.{fits_changeset, the_profile, unspell};
ghost use Rattle.sync_model.specs.Files.{readable};
ghost use Rattle.sync_model.specs.Fronts.{count_is, crossed_is, entry_is, front_alone, front_behind, front_counts, front_crossed, front_entries, front_parts, front_uuids, of_kind, leading, part_of, part_step, taking, taking_all, uuid_is, walk};
ghost use Rattle.server_memory.specs.Fronting.{Fronts, Grows, IsGrown, Walks, grown_seen, instrs_of, seen_from, uuids_of};

use crate::carried::{Grown, all_end, read_entries};
use crate::counting::{all_within, read_counts, with_counts};
use crate::given::Given;
use crate::history::{History, LAST};
use crate::kept::Kept;
use crate::kinds::{Found, as_floor, as_part};
use crate::lists::keep;
use crate::merging::{ChangeHead, read};
use crate::passed::{read_passed, with_pairs};
use crate::refusal::ChangeRefusal;
use crate::uuids::{counts_at, read_idents, read_retired, skip_clients, skip_retired};
use crate::version::needs_second;
use std::alloc::Global;
use sync_base::{Changeset, Ident, NoMemory};
use sync_journal::{LONGEST, ReadRefusal};
use sync_snapshot::{GrowRefusal, grown};
use sync_store::Store;

/// The changeset that the bytes spell, if they spell one that the form allows.
pub(crate) fn allowed(
    alloc: Global,
    second: bool,
    ms: u64,
    bytes: &[u8],
) -> Result<Option<Changeset>, NoMemory>
    ensures listed { IfOk result (λ found. option_map (λ v. v.instrs) found ≡ readable the_profile second (unspell bytes.now)) }
    ensures timed { IfOk result (λ found. IfSome found (λ v. v.ms ≡ ms)) }
    ensures small { IfOk result (λ found. IfSome found (λ v. fits_changeset v.instrs ≡ true)) }
{
    if bytes.len() > LONGEST {
        return Err(NoMemory);
    }
    let head = ChangeHead {
        number: 0,
        base: 0,
        ms,
    };
    match read(alloc, head, bytes) {
        Ok(changes) => {
            if !second && needs_second(changes.instrs()) {
                return Ok(None);
            }
            Ok(Some(changes))
        }
        Err(ChangeRefusal::Refused(_)) => Ok(None),
        Err(ChangeRefusal::NoMemory) => Err(NoMemory),
    }
}

/// The parts of a state from a place on.
fn read_parts(
    alloc: Global,
    records: &[Found],
    first: usize,
    second: bool,
) -> Result<Vec<Changeset>, ReadRefusal>
    requires { first ≤ length records.now }
    ensures { Walks (λ parts. instrs_of parts.items) (λ parts. length parts.items) first (walk (part_step the_profile second) [] (leading (of_kind part_of) (seen_from first records.now))) (length (leading (of_kind part_of) (seen_from first records.now))) result }
{
    let mut parts = Vec::new(alloc);
    for place in first..records.len() {
        match as_part(&records[place]) {
            None => return Ok(parts),
            Some(body) => match allowed(alloc, second, 0, body.bytes()) {
                Ok(Some(changes)) => match keep(&mut parts, changes) {
                    Ok(()) => {}
                    Err(NoMemory) => return Err(ReadRefusal::NoMemory),
                },
                Ok(None) => return Err(ReadRefusal::BadRecord { place }),
                Err(NoMemory) => return Err(ReadRefusal::NoMemory),
            },
        }
    }
    Ok(parts)
}

/// The state of which these are the parts, which stand from a place on.
fn grown_of(alloc: Global, first: usize, parts: &[Changeset]) -> Result<Store, ReadRefusal>
    ensures { Grows first (instrs_of parts.now) result }
{
    match grown(alloc, parts) {
        Ok(objects) => Ok(objects),
        Err(GrowRefusal::BadPart { place }) => match first.checked_add(place as usize) {
            Some(place) => Err(ReadRefusal::BadRecord { place }),
            None => Err(ReadRefusal::NoMemory),
        },
        Err(GrowRefusal::NoMemory) => Err(ReadRefusal::NoMemory),
    }
}

impl Kept {
    ghost use Rattle.server_memory.specs.Kept.{parts};

    /// Reads the front of a trimmed file from a place on, behind its Form if it has one.
    pub(crate) fn front_parts(
        alloc: Global,
        records: &[Found],
        first: usize,
        second: bool,
    ) -> Result<(Kept, usize), ReadRefusal>
        requires some { 0 < length records.now }
        requires within { first ≤ length records.now }
        ensures { Fronts result (taking_all (of_kind part_of) (seen_from first records.now) (front_parts the_profile second first)) }
    {
        let parts = read_parts(alloc, records, first, second)?;
        let below = grown_of(alloc, first, parts.as_slice())?;
        let objects = grown_of(alloc, first, parts.as_slice())?;
        Kept::front_floor(alloc, records, first + parts.len(), second, below, objects)
    }

    /// The same behind the parts, where the state that is grown of them is told twice.
    fn front_floor(
        alloc: Global,
        records: &[Found],
        place: usize,
        second: bool,
        below: Store,
        objects: Store,
    ) -> Result<(Kept, usize), ReadRefusal>
        requires some { 0 < length records.now }
        requires within { place ≤ length records.now }
        requires same { objects ≡ below }
        ensures { Fronts result (front_behind the_profile second below place (seen_from place records.now)) }
    {
        if place == records.len() {
            return Err(ReadRefusal::BadRecord { place: place - 1 });
        }
        match as_floor(&records[place]) {
            None => Err(ReadRefusal::BadRecord { place }),
            Some(floor) => {
                Kept::front_idents(alloc, records, place + 1, second, below, objects, floor)
            }
        }
    }

    /// The same behind the floor.
    fn front_idents(
        alloc: Global,
        records: &[Found],
        place: usize,
        second: bool,
        below: Store,
        objects: Store,
        floor: u32,
    ) -> Result<(Kept, usize), ReadRefusal>
        requires positive { 1 ≤ place }
        requires within { place ≤ length records.now }
        requires same { objects ≡ below }
        ensures { Fronts result (taking_all (of_kind uuid_is) (seen_from place records.now) (front_uuids the_profile second below floor place)) }
    {
        let ids_end = skip_clients(records, place);
        let retired_end = skip_retired(records, ids_end);
        if !counts_at(records, retired_end) {
            if floor > 0 {
                return Err(ReadRefusal::BadRecord { place: place - 1 });
            }
            return Ok((Kept::alone(alloc, second, below, objects), place));
        }
        if ids_end == place {
            return Err(ReadRefusal::BadRecord { place });
        }
        let idents = read_idents(alloc, records, place)?;
        let retired = read_retired(alloc, records, ids_end, idents.len())?;
        Kept::front_counts(
            alloc,
            records,
            retired_end,
            second,
            below,
            objects,
            floor,
            idents,
            retired,
        )
    }

    /// What is kept of a state and nothing else.
    fn alone(alloc: Global, second: bool, below: Store, objects: Store) -> Kept
        requires { objects ≡ below }
        ensures { parts result ≡ (front_alone the_profile second below 0 0).parts }
    {
        let mut history = History::new(alloc);
        if second {
            history.upgrade();
        }
        Kept {
            history,
            objects,
            below,
        }
    }

    /// The same behind the retired idents.
    fn front_counts(
        alloc: Global,
        records: &[Found],
        place: usize,
        second: bool,
        below: Store,
        objects: Store,
        floor: u32,
        idents: Vec<Given>,
        retired: Vec<(Ident, Ident)>,
    ) -> Result<(Kept, usize), ReadRefusal>
        requires positive { 1 ≤ place }
        requires within { place ≤ length records.now }
        requires same { objects ≡ below }
        ensures { Fronts result (taking (of_kind count_is) (length idents.items) (seen_from place records.now) (front_counts the_profile second below floor (uuids_of idents.items) retired.items place)) }
    {
        let most = idents.len();
        if most > LAST as usize {
            return Err(ReadRefusal::NoMemory);
        }
        let (counts, len) = read_counts(alloc, records, place, most)?;
        let end = place + counts.len();
        if counts.len() < most || floor > len || !all_within(len, counts.as_slice()) {
            return Err(ReadRefusal::BadRecord { place: end - 1 });
        }
        let idents = match with_counts(
            alloc,
            idents.as_slice(),
            counts.as_slice(),
            retired.as_slice(),
        ) {
            Ok(idents) => idents,
            Err(NoMemory) => return Err(ReadRefusal::NoMemory),
        };
        Kept::front_entries(
            alloc, records, end, second, below, objects, floor, len, idents, retired,
        )
    }

    /// The same behind the counts.
    fn front_entries(
        alloc: Global,
        records: &[Found],
        place: usize,
        second: bool,
        below: Store,
        objects: Store,
        floor: u32,
        len: u32,
        idents: Vec<Given>,
        retired: Vec<(Ident, Ident)>,
    ) -> Result<(Kept, usize), ReadRefusal>
        requires positive { 1 ≤ place }
        requires within { place ≤ length records.now }
        requires same { objects ≡ below }
        requires reach { floor ≤ len }
        requires few { length idents.items ≤ 4294967295 }
        ensures { Fronts result (taking (of_kind entry_is) (len - floor) (seen_from place records.now) (front_entries the_profile second below floor len retired.items idents.items place)) }
    {
        let most = (len - floor) as usize;
        let grown = read_entries(
            alloc,
            records,
            place,
            most,
            second,
            idents.as_slice(),
            objects,
        )?;
        let count = grown.entries.len();
        let end = place + count;
        if count < most || !all_end(grown.entries.as_slice(), idents.as_slice()) {
            return Err(ReadRefusal::BadRecord { place: end - 1 });
        }
        Kept::front_passed(
            alloc, records, end, second, below, floor, idents, retired, grown,
        )
    }

    /// The same behind the entries.
    fn front_passed(
        alloc: Global,
        records: &[Found],
        place: usize,
        second: bool,
        below: Store,
        floor: u32,
        idents: Vec<Given>,
        retired: Vec<(Ident, Ident)>,
        grown: Grown,
    ) -> Result<(Kept, usize), ReadRefusal>
        requires within { place ≤ length records.now }
        requires few { length idents.items ≤ 4294967295 }
        requires short { floor + length grown.entries.items ≤ 4294967295 }
        requires grown { IsGrown (length idents.items) (grown_seen grown) }
        ensures { Fronts result (taking_all (of_kind crossed_is) (seen_from place records.now) (front_crossed the_profile second below floor (floor + length grown.entries.items) retired.items idents.items (grown_seen grown) place)) }
    {
        let Grown {
            objects,
            entries,
            bases,
        } = grown;
        let passed = read_passed(
            alloc,
            records,
            place,
            second,
            floor,
            idents.as_slice(),
            entries.as_slice(),
        )?;
        let idents = match with_pairs(
            alloc,
            floor,
            idents.as_slice(),
            entries.as_slice(),
            passed.as_slice(),
        ) {
            Ok(idents) => idents,
            Err(NoMemory) => return Err(ReadRefusal::NoMemory),
        };
        let kept = Kept {
            history: History::kept(floor, entries, bases, second, idents, retired),
            objects,
            below,
        };
        Ok((kept, place + passed.len()))
    }
}
