//! The entries of a trimmed file: the history from its floor on, and the objects after it.
ghost use Rattle.std.specs.Prelude.{◌≡◌, ◌≤◌, ℕ, List, length, map, take, None, true, IfOk};
ghost use Rattle.std.specs.Option.{option_copied};
ghost use Rattle.sync_exchange.specs.Profile.{fits_changeset, the_profile};
ghost use Rattle.sync_recip.specs.Lists.{entry_of};
ghost use Rattle.sync_transform.specs.Sets.{made_by};
ghost use Rattle.sync_model.specs.Fronts.{all_end, entry_is, entry_step, last_of, leading, numbers_on, of_kind, walk};
ghost use Rattle.sync_model.specs.Parts.{at_ident};
ghost use Rattle.server_memory.specs.Fronting.{ActsOn, Enters, IsGrown, Walks, begun_on, carried_seen, grown_seen, seen_from};

use crate::front::allowed;
use crate::given::Given;
use crate::history::keep_entry;
use crate::kinds::{Found, as_carried};
use crate::merging::{ChangeHead, apply};
use crate::refusal::ChangeRefusal;
use std::alloc::Global;
use sync_base::{Changeset, Entry, Ident, NoMemory};
use sync_journal::ReadRefusal;
use sync_recip::SharedEntry;
use sync_store::Store;

/// The entries so far with their bases, and the objects after them.
#[derive(Drop)]
pub(crate) struct Grown {
    pub(crate) objects: Store,
    pub(crate) entries: Vec<SharedEntry>,
    pub(crate) bases: Vec<u32>,
}

/// The number of the last entry of an origin, if there is one.
fn last_number(entries: &[SharedEntry], origin: Ident) -> Option<u32>
    ensures { result ≡ last_of origin (map entry_of entries.now) None }
{
    let count = entries.len();
    for behind in 0..count {
        let entry = entries[count - 1 - behind].entry();
        if entry.origin == origin {
            return Some(entry.number);
        }
    }
    None
}

/// What is known of an ident among these, of which the first has ident 1.
pub(crate) fn given_in(idents: &[Given], ident: Ident) -> Option<&Given>
    ensures { option_copied result ≡ at_ident ident idents.now }
{
    if ident == 0 {
        return None;
    }
    idents.get(ident as usize - 1)
}

/// Whether an entry is the next one of its origin.
fn is_next(idents: &[Given], entries: &[SharedEntry], origin: Ident, head: ChangeHead) -> bool
    ensures { (body : List ℕ) → result ≡ numbers_on (map entry_of entries.now) (carried_seen origin head body) (at_ident origin idents.now) }
{
    let Some(given) = given_in(idents, origin) else {
        return false;
    };
    if head.number < 1 || head.number > given.count() {
        return false;
    }
    match last_number(entries, origin) {
        None => true,
        Some(last) => head.number - 1 == last,
    }
}

/// Whether the numbers of each ident end with its count.
pub(crate) fn all_end(entries: &[SharedEntry], idents: &[Given]) -> bool
    requires { length idents.now ≤ 4294967295 }
    ensures { result ≡ all_end 1 (map entry_of entries.now) idents.now }
{
    for place in 0..idents.len() {
        match last_number(entries, place as u32 + 1) {
            None => {}
            Some(last) => {
                if last != idents[place].count() {
                    return false;
                }
            }
        }
    }
    true
}

impl Grown {
    /// Whether an entry acts on the objects; then it is the last one.
    fn grow(
        &mut self,
        alloc: Global,
        origin: Ident,
        head: ChangeHead,
        changes: Changeset,
    ) -> Result<bool, NoMemory>
        requires { fits_changeset changes.instrs ≡ true }
        ensures { ActsOn (grown_seen self.old) (made_by origin head.number changes) head.base (grown_seen self.new) result }
    {
        match apply(&mut self.objects, &changes) {
            Ok(()) => {}
            Err(ChangeRefusal::Refused(_)) => return Ok(false),
            Err(ChangeRefusal::NoMemory) => return Err(NoMemory),
        }
        let entry = Entry {
            origin,
            number: head.number,
            changes,
        };
        keep_entry(&mut self.entries, &mut self.bases, alloc, entry, head.base)?;
        Ok(true)
    }

    /// Whether an entry is the next of its origin, and acts; then it is the last one.
    fn take_entry(
        &mut self,
        alloc: Global,
        second: bool,
        idents: &[Given],
        origin: Ident,
        head: ChangeHead,
        body: &[u8],
    ) -> Result<bool, NoMemory>
        ensures { Enters (length idents.now) (grown_seen self.old) (grown_seen self.new) (entry_step the_profile second idents.now (grown_seen self.old) (carried_seen origin head body.now)) result }
    {
        if !is_next(idents, self.entries.as_slice(), origin, head) {
            return Ok(false);
        }
        match allowed(alloc, second, head.ms, body) {
            Ok(Some(changes)) => self.grow(alloc, origin, head, changes),
            Ok(None) => Ok(false),
            Err(NoMemory) => Err(NoMemory),
        }
    }
}

/// So many entries at most from a place on, which act on the objects one after the other.
pub(crate) fn read_entries(
    alloc: Global,
    records: &[Found],
    first: usize,
    most: usize,
    second: bool,
    idents: &[Given],
    objects: Store,
) -> Result<Grown, ReadRefusal>
    requires { first ≤ length records.now }
    ensures read { Walks grown_seen (λ g. length g.entries.items) first (walk (entry_step the_profile second idents.now) (begun_on objects) (take most (leading (of_kind entry_is) (seen_from first records.now)))) (length (take most (leading (of_kind entry_is) (seen_from first records.now)))) result }
    ensures grown { IfOk result (λ g. IsGrown (length idents.now) (grown_seen g)) }
{
    let mut grown = Grown {
        objects,
        entries: Vec::new(alloc),
        bases: Vec::new(alloc),
    };
    for place in first..records.len() {
        if grown.entries.len() == most {
            return Ok(grown);
        }
        match as_carried(&records[place]) {
            None => return Ok(grown),
            Some((origin, head, body)) => {
                match grown.take_entry(alloc, second, idents, origin, head, body.bytes()) {
                    Ok(true) => {}
                    Ok(false) => return Err(ReadRefusal::BadRecord { place }),
                    Err(NoMemory) => return Err(ReadRefusal::NoMemory),
                }
            }
        }
    }
    Ok(grown)
}
