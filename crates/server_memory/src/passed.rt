//! What a trimmed file tells of the entries that an ident's changes crossed, where they aren't as in the history.
ghost use Rattle.std.specs.Prelude.{◌≡◌, ◌≤◌, ◌+◌, ◌&&◌, ◌==◌, not, bytes_eq, max, [], length, map, nat_le, true, IfOk, IfSome};
ghost use Rattle.std.specs.Option.{option_map};
ghost use Rattle.sync_codec.specs.Spelling.{spelling};
ghost use Rattle.sync_exchange.specs.Profile.{fits_changeset, the_profile, unspell};
ghost use Rattle.sync_model.specs.Files.{readable};
ghost use Rattle.sync_recip.specs.Lists.{entry_of};
ghost use Rattle.sync_model.specs.Fronts.{crossed_is, crossed_step, leading, of_kind, pairs_of, rises, walk, with_pairs};
ghost use Rattle.sync_model.specs.Parts.{list_kept};
ghost use Rattle.sync_model.specs.Trims.{is_live, pairs_from};
ghost use Rattle.server_memory.specs.Crossing.{ArePassed, Crosses, FindsAt, IsSorted, NextPassed, is_before, passed_seen, past_seen};
ghost use Rattle.server_memory.specs.Fronting.{Walks, seen_from};

use crate::carried::given_in;
use crate::front::allowed;
use crate::given::Given;
use crate::kinds::{Found, PastHead, as_past};
use crate::lists::keep;
use std::alloc::Global;
use sync_base::{Entry, Ident, NoMemory};
use sync_codec::encode;
use sync_journal::ReadRefusal;
use sync_recip::{Recip, SharedEntry};

/// An entry as an ident's changes crossed it.
#[derive(Drop)]
pub(crate) struct Passed {
    pub(crate) ident: Ident,
    pub(crate) version: u32,
    pub(crate) entry: SharedEntry,
}

impl Passed {
    /// Whether it comes before that ident and version.
    fn is_before(&self, ident: Ident, version: u32) -> bool
        ensures { result ≡ is_before ident version (passed_seen self.now) }
    {
        self.ident < ident || (self.ident == ident && self.version < version)
    }
}

/// Whether one of that ident and version comes behind the others.
fn rises(passed: &[Passed], ident: Ident, version: u32) -> bool
    ensures { result ≡ rises (map passed_seen passed.now) ident version }
{
    if passed.is_empty() {
        return true;
    }
    passed[passed.len() - 1].is_before(ident, version)
}

/// Whether the changes of an ident that has these cross an entry.
fn crosses(floor: u32, given: &Given, head: PastHead, entry: &Entry) -> bool
    ensures { result ≡ (is_live given.now && (nat_le (max floor given.now.last) head.version && (not (entry.now.origin == head.ident) && (head.ms == entry.now.changes.ms)))) }
{
    given.heir().is_none()
        && floor <= head.version
        && given.last() <= head.version
        && entry.origin != head.ident
        && head.ms == entry.changes.ms()
}

/// Whether the bytes are others than those of an entry.
fn is_other(alloc: Global, entry: &Entry, body: &[u8]) -> Result<bool, NoMemory>
    ensures { IfOk result (λ other. other ≡ not (bytes_eq body.now (spelling entry.now.changes.instrs))) }
{
    let bytes = encode(alloc, &entry.changes)?;
    Ok(body != bytes.as_slice())
}

/// What an entry became as an ident's changes crossed it, if the bytes can tell it.
fn crossed(
    alloc: Global,
    second: bool,
    floor: u32,
    idents: &[Given],
    entries: &[SharedEntry],
    head: PastHead,
    body: &[u8],
) -> Result<Option<SharedEntry>, NoMemory>
    ensures { IfOk result (λ found. Crosses second floor idents.now (map entry_of entries.now) (past_seen head body.now) found) }
{
    let Some(given) = given_in(idents, head.ident) else {
        return Ok(None);
    };
    if head.version < floor {
        return Ok(None);
    }
    let Some(shared) = entries.get((head.version - floor) as usize) else {
        return Ok(None);
    };
    let entry = shared.entry();
    if !crosses(floor, given, head, entry) {
        return Ok(None);
    }
    match is_other(alloc, entry, body) {
        Ok(true) => replaced(alloc, second, entry, head.ms, body),
        Ok(false) => Ok(None),
        Err(NoMemory) => Err(NoMemory),
    }
}

/// The entry with the list that the bytes spell, if they spell one that the form allows.
fn replaced(
    alloc: Global,
    second: bool,
    entry: &Entry,
    ms: u64,
    body: &[u8],
) -> Result<Option<SharedEntry>, NoMemory>
    requires { ms ≡ entry.now.changes.ms }
    ensures listed { IfOk result (λ found. option_map (λ y. y.changes.instrs) found ≡ readable the_profile second (unspell body.now)) }
    ensures same { IfOk result (λ found. IfSome found (λ y. entry_of y ≡ record (entry_of entry.now) { instrs = y.changes.instrs })) }
    ensures small { IfOk result (λ found. IfSome found (λ y. fits_changeset y.changes.instrs ≡ true)) }
{
    let changes = match allowed(alloc, second, ms, body) {
        Ok(Some(changes)) => changes,
        Ok(None) => return Ok(None),
        Err(NoMemory) => return Err(NoMemory),
    };
    let made = Entry {
        origin: entry.origin,
        number: entry.number,
        changes,
    };
    let shared = SharedEntry::new(alloc, made)?;
    Ok(Some(shared))
}

/// What a record tells, if it comes behind the others and can be so.
fn next_passed(
    alloc: Global,
    second: bool,
    floor: u32,
    idents: &[Given],
    entries: &[SharedEntry],
    passed: &[Passed],
    head: PastHead,
    body: &[u8],
) -> Result<Option<Passed>, NoMemory>
    ensures { IfOk result (λ next. NextPassed second floor idents.now (map entry_of entries.now) passed.now (past_seen head body.now) next) }
{
    if !rises(passed, head.ident, head.version) {
        return Ok(None);
    }
    match crossed(alloc, second, floor, idents, entries, head, body) {
        Ok(Some(entry)) => Ok(Some(Passed {
            ident: head.ident,
            version: head.version,
            entry,
        })),
        Ok(None) => Ok(None),
        Err(NoMemory) => Err(NoMemory),
    }
}

/// What the records from a place on tell of crossed entries.
pub(crate) fn read_passed(
    alloc: Global,
    records: &[Found],
    first: usize,
    second: bool,
    floor: u32,
    idents: &[Given],
    entries: &[SharedEntry],
) -> Result<Vec<Passed>, ReadRefusal>
    requires { first ≤ length records.now }
    ensures read { Walks (λ passed. map passed_seen passed.items) (λ passed. length passed.items) first (walk (crossed_step the_profile second floor idents.now (map entry_of entries.now)) [] (leading (of_kind crossed_is) (seen_from first records.now))) (length (leading (of_kind crossed_is) (seen_from first records.now))) result }
    ensures sorted { IfOk result (λ passed. IsSorted (map passed_seen passed.items)) }
    ensures each { IfOk result (λ passed. ArePassed floor (map entry_of entries.now) passed.items) }
{
    let mut passed = Vec::new(alloc);
    for place in first..records.len() {
        match as_past(&records[place]) {
            None => return Ok(passed),
            Some((head, body)) => {
                let known = passed.as_slice();
                let bytes = body.bytes();
                match next_passed(alloc, second, floor, idents, entries, known, head, bytes) {
                    Ok(Some(next)) => match keep(&mut passed, next) {
                        Ok(()) => {}
                        Err(NoMemory) => return Err(ReadRefusal::NoMemory),
                    },
                    Ok(None) => return Err(ReadRefusal::BadRecord { place }),
                    Err(NoMemory) => return Err(ReadRefusal::NoMemory),
                }
            }
        }
    }
    Ok(passed)
}

/// What is told of an ident and a version, if anything is.
fn passed_at(passed: &[Passed], ident: Ident, version: u32) -> Option<&Passed>
    requires { IsSorted (map passed_seen passed.now) }
    ensures { FindsAt ident version passed.now result }
{
    let place = passed.partition_point(|one| one.is_before(ident, version));
    if place >= passed.len() {
        return None;
    }
    let found = &passed[place];
    if found.ident != ident || found.version != version {
        return None;
    }
    Some(found)
}

/// The entries of others from a version on, as an ident's changes crossed them.
fn crossed_from(
    alloc: Global,
    floor: u32,
    first: u32,
    ident: Ident,
    entries: &[SharedEntry],
    passed: &[Passed],
) -> Result<Recip, NoMemory>
    requires short { floor + length entries.now ≤ 4294967295 }
    requires sorted { IsSorted (map passed_seen passed.now) }
    requires each { ArePassed floor (map entry_of entries.now) passed.now }
    ensures { IfOk result (λ made. made ≡ pairs_from first (pairs_of ident floor (map entry_of entries.now) (map passed_seen passed.now))) }
{
    let mut made = Recip::new(alloc);
    for place in 0..entries.len() {
        let version = floor + place as u32;
        let shared = &entries[place];
        if version >= first && shared.entry().origin != ident {
            let entry = match passed_at(passed, ident, version) {
                Some(found) => &found.entry,
                None => shared,
            };
            made.push_shared(version, entry)?;
        }
    }
    Ok(made)
}

/// The entries of others as the changes of an ident that has these cross them. A retired ident has no use for them.
fn crossed_by(
    alloc: Global,
    floor: u32,
    ident: Ident,
    given: &Given,
    entries: &[SharedEntry],
    passed: &[Passed],
) -> Result<Recip, NoMemory>
    requires short { floor + length entries.now ≤ 4294967295 }
    requires sorted { IsSorted (map passed_seen passed.now) }
    requires each { ArePassed floor (map entry_of entries.now) passed.now }
    ensures { IfOk result (λ made. made ≡ list_kept given.now.heir (pairs_from (max floor given.now.last) (pairs_of ident floor (map entry_of entries.now) (map passed_seen passed.now)))) }
{
    if given.heir().is_some() {
        return Ok(Recip::new(alloc));
    }
    let first = floor.max(given.last());
    crossed_from(alloc, floor, first, ident, entries, passed)
}

/// The idents with the entries of others, as their changes cross them.
pub(crate) fn with_pairs(
    alloc: Global,
    floor: u32,
    idents: &[Given],
    entries: &[SharedEntry],
    passed: &[Passed],
) -> Result<Vec<Given>, NoMemory>
    requires few { length idents.now ≤ 4294967295 }
    requires short { floor + length entries.now ≤ 4294967295 }
    requires sorted { IsSorted (map passed_seen passed.now) }
    requires each { ArePassed floor (map entry_of entries.now) passed.now }
    ensures { IfOk result (λ made. made.items ≡ with_pairs 1 floor (map entry_of entries.now) (map passed_seen passed.now) idents.now) }
{
    let mut made = Vec::new(alloc);
    for place in 0..idents.len() {
        let given = &idents[place];
        let ident = place as u32 + 1;
        let reciprocal = crossed_by(alloc, floor, ident, given, entries, passed)?;
        keep(&mut made, given.crossing(reciprocal))?;
    }
    Ok(made)
}
