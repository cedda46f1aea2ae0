ghost use Rattle.std.specs.Prelude.{◌≡◌, ◌≤◌, length, true};
ghost use Rattle.sync_exchange.specs.Profile.{fits_changeset};
ghost use Rattle.server_memory.specs.Merging.{Reads, AppliesBy, change_of, numbers_broken, refused};

use crate::given::Given;
use crate::history::LAST;
use crate::refusal::{ChangeRefusal, Refusal};
use std::alloc::Global;
use sync_base::Changeset;
use sync_codec::{DecodeRefusal, decode};
use sync_messages::Change;
use sync_recip::Carried;
use sync_store::{AllRefusal, Store};

/// A change that is ready to act: as carried, and whether its bytes are of version 2.
#[derive(Drop)]
pub(crate) struct Prepared {
    pub(crate) carried: Carried,
    pub(crate) second: bool,
}

/// A change without its bytes: its number, at least 1, among its client's, the version of the history that it was made
/// at, and its time in milliseconds since the epoch.
#[derive(Clone, Copy)]
pub struct ChangeHead {
    pub number: u32,
    pub base: u32,
    pub ms: u64,
}

impl ChangeHead {
    pub fn of(change: &Change) -> ChangeHead
        ensures { result ≡ record { number = change.now.number; base = change.now.base; ms = change.now.ms } }
    {
        ChangeHead {
            number: change.number(),
            base: change.base(),
            ms: change.ms(),
        }
    }
}

/// Whether the numbers of a change are those of its client's next one.
pub(crate) fn admit(given: &Given, len: u32, floor: u32, head: ChangeHead) -> Result<(), Refusal>
    requires { 1 ≤ head.number }
    ensures { refused result ≡ numbers_broken len floor given.now head.number head.base }
{
    let (count, last) = (given.count(), given.last());
    if given.heir().is_some() {
        return Err(Refusal::IdentRetired { count });
    }
    if head.number - 1 > count {
        return Err(Refusal::NumberGap {
            expected: count + 1,
        });
    }
    if head.base < last {
        return Err(Refusal::BaseBack { last });
    }
    if head.base > len {
        return Err(Refusal::AheadOfHistory { len });
    }
    if head.base < floor {
        return Err(Refusal::Trimmed { floor });
    }
    if len == LAST {
        return Err(Refusal::HistoryFull { len });
    }
    Ok(())
}

/// The instructions of a change.
pub(crate) fn read(alloc: Global, head: ChangeHead, body: &[u8]) -> Result<Changeset, ChangeRefusal>
    requires { length body.now ≤ 67108864 }
    ensures { Reads result (change_of head body.now) }
{
    match decode(alloc, head.ms, body) {
        Ok(changes) => Ok(changes),
        Err(DecodeRefusal::Bad(bad)) => Err(ChangeRefusal::Refused(Refusal::BadBytes(bad))),
        Err(DecodeRefusal::NoMemory) => Err(ChangeRefusal::NoMemory),
    }
}

/// Lets a change act on the objects.
pub(crate) fn apply(objects: &mut Store, changes: &Changeset) -> Result<(), ChangeRefusal>
    requires { fits_changeset changes.now.instrs ≡ true }
    ensures { AppliesBy result changes.now.instrs objects.old objects.new }
{
    match objects.apply_all(changes) {
        Ok(()) => Ok(()),
        Err(AllRefusal::Break { place, cause }) => {
            Err(ChangeRefusal::Refused(Refusal::Break {
                place: place as u32,
                cause,
            }))
        }
        Err(AllRefusal::NoMemory) => Err(ChangeRefusal::NoMemory),
    }
}
