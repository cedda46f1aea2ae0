//! The idents of a trimmed file: the uuids at its front, and which of them are retired.
ghost use Rattle.std.specs.Prelude.{◌≡◌, ◌≤◌, ◌+◌, [], not, length};
ghost use Rattle.sync_model.specs.Files.{is_empty};
ghost use Rattle.sync_model.specs.Fronts.{count_is, is_among, leading, of_kind, retired_is, retired_step, uuid_is, uuid_step, walk};
ghost use Rattle.sync_model.specs.Servers.{heir_of};
ghost use Rattle.server_memory.specs.Fronting.{Walks, can_retire, seen_from, uuids_of};

use crate::given::{Given, ident_in};
use crate::history::LAST;
use crate::kinds::{Found, as_client, as_count, as_retired};
use crate::lists::keep;
use std::alloc::Global;
use sync_base::{Ident, NoMemory};
use sync_journal::ReadRefusal;
use sync_recip::Recip;

/// The place behind the uuids from a place on.
pub(crate) fn skip_clients(records: &[Found], first: usize) -> usize
    requires { first ≤ length records.now }
    ensures value { result ≡ first + length (leading (of_kind uuid_is) (seen_from first records.now)) }
    ensures within { result ≤ length records.now }
{
    for place in first..records.len() {
        match as_client(&records[place]) {
            None => return place,
            Some(_) => {}
        }
    }
    records.len()
}

/// The place behind the retired idents from a place on.
pub(crate) fn skip_retired(records: &[Found], first: usize) -> usize
    requires { first ≤ length records.now }
    ensures value { result ≡ first + length (leading (of_kind retired_is) (seen_from first records.now)) }
    ensures within { result ≤ length records.now }
{
    for place in first..records.len() {
        match as_retired(&records[place]) {
            None => return place,
            Some(_) => {}
        }
    }
    records.len()
}

/// Whether a count stands at a place.
pub(crate) fn counts_at(records: &[Found], place: usize) -> bool
    requires { place ≤ length records.now }
    ensures { result ≡ not (is_empty (leading (of_kind count_is) (seen_from place records.now))) }
{
    if place == records.len() {
        return false;
    }
    match as_count(&records[place]) {
        None => false,
        Some(_) => true,
    }
}

/// The idents from a place on, of which nothing but the uuid is known.
pub(crate) fn read_idents(
    alloc: Global,
    records: &[Found],
    first: usize,
) -> Result<Vec<Given>, ReadRefusal>
    requires { first ≤ length records.now }
    ensures { Walks (λ idents. uuids_of idents.items) (λ idents. length idents.items) first (walk uuid_step [] (leading (of_kind uuid_is) (seen_from first records.now))) (length (leading (of_kind uuid_is) (seen_from first records.now))) result }
{
    let mut idents = Vec::new(alloc);
    for place in first..records.len() {
        match as_client(&records[place]) {
            None => return Ok(idents),
            Some(id) => {
                if idents.len() >= LAST as usize {
                    return Err(ReadRefusal::NoMemory);
                }
                if ident_in(idents.as_slice(), &id).is_some() {
                    return Err(ReadRefusal::BadRecord { place });
                }
                match keep(&mut idents, Given::new(id, Recip::new(alloc))) {
                    Ok(()) => {}
                    Err(NoMemory) => return Err(ReadRefusal::NoMemory),
                }
            }
        }
    }
    Ok(idents)
}

/// For whom an ident was retired, if it was.
pub(crate) fn heir_in(retired: &[(Ident, Ident)], ident: Ident) -> Option<Ident>
    ensures { result ≡ heir_of ident retired.now }
{
    for place in 0..retired.len() {
        let (known, by) = retired[place];
        if ident == known {
            return Some(by);
        }
    }
    None
}

/// The retired idents from a place on, where so many are given.
pub(crate) fn read_retired(
    alloc: Global,
    records: &[Found],
    first: usize,
    given: usize,
) -> Result<Vec<(Ident, Ident)>, ReadRefusal>
    requires { first ≤ length records.now }
    ensures { Walks (λ retired. retired.items) (λ retired. length retired.items) first (walk (retired_step given) [] (leading (of_kind retired_is) (seen_from first records.now))) (length (leading (of_kind retired_is) (seen_from first records.now))) result }
{
    let mut retired = Vec::new(alloc);
    for place in first..records.len() {
        match as_retired(&records[place]) {
            None => return Ok(retired),
            Some((ident, by)) => {
                if !can_retire(retired.as_slice(), given, ident, by) {
                    return Err(ReadRefusal::BadRecord { place });
                }
                match keep(&mut retired, (ident, by)) {
                    Ok(()) => {}
                    Err(NoMemory) => return Err(ReadRefusal::NoMemory),
                }
            }
        }
    }
    Ok(retired)
}

/// Whether an ident is one of so many and isn't retired yet, for another of them.
fn can_retire(retired: &[(Ident, Ident)], given: usize, ident: Ident, by: Ident) -> bool
    ensures { result ≡ can_retire given retired.now ident by }
{
    let both = is_among(given, ident) && is_among(given, by);
    both && ident != by && heir_in(retired, ident).is_none()
}

fn is_among(given: usize, ident: Ident) -> bool
    ensures { result ≡ is_among given ident }
{
    1 <= ident && ident as usize <= given
}
