ghost use Rattle.std.specs.Prelude.{◌≡◌, ◌≤◌, List, false, true, IsErrOf, IfErr, IfOk, Ok};
ghost use Rattle.sync_exchange.specs.Profile.{unspell};
ghost use Rattle.sync_model.specs.Clients.{ClientRecord};
ghost use Rattle.sync_client.specs.Clients.{IsClientOf, IsStored, UsesDisk, is_closed};
ghost use Rattle.sync_heir.specs.Heirs.{HeirCloses, HeirSays, HeirSurvives, IsHeirCause, IsUnread, heir_step, save_step};

use crate::answer::Heir;
use crate::refusal::ResetRefusal;
use std::alloc::Global;
use sync_base::Changeset;
use sync_client::{Client, ClientRefusal};
use sync_codec::{DecodeRefusal, decode};
use sync_disk::Disk;
use sync_exchange::{Instrs, limits_tell};
use sync_messages::{Change, Retired};
use sync_model::heirs_save_once;
use sync_reset::{Saved, saved};

/// What becomes of a change of an old client whose ident was retired for this client, its heir. A change that is in the
/// history, or that the heir has saved, is left as it is. The next one is saved: what can be saved of it is one transaction
/// of the heir, with the time of the change, even if it is empty. Errors, in this order: NotMine, Skips, BadChange, Client,
/// NoMemory; a closed client answers Client with Closed.
pub fn heir<D: Disk>(
    alloc: Global,
    client: &mut Client<D>,
    retired: &Retired,
    change: &Change,
) -> Result<Heir, ResetRefusal>
    ensures does { (records : List ClientRecord) → IsClientOf records client.old → HeirSays (heir_step records retired.now change.now) records client.new result }
    ensures survives { (records : List ClientRecord) → IsClientOf records client.old → IsStored records client.old → HeirSurvives (heir_step records retired.now change.now) records client.old client.new result }
    // No break comes of the heir's transaction, and it is never too large.
    ensures causes { (records : List ClientRecord) → IsClientOf records client.old → IfErr result IsHeirCause }
    ensures closes { HeirCloses client.old client.new result }
    ensures disk { UsesDisk (IsErrOf result (ResetRefusal.Client ClientRefusal.DiskFault)) client.old client.new }
{
    heirs_save_once::<Instrs>();
    inherit(alloc, client, retired, change)
}

/// What `heir` does. It stands apart so that `heir` can say of its answer, by the law on recoveries, which causes come.
fn inherit<D: Disk>(
    alloc: Global,
    client: &mut Client<D>,
    retired: &Retired,
    change: &Change,
) -> Result<Heir, ResetRefusal>
    ensures does { (records : List ClientRecord) → IsClientOf records client.old → HeirSays (heir_step records retired.now change.now) records client.new result }
    ensures survives { (records : List ClientRecord) → IsClientOf records client.old → IsStored records client.old → HeirSurvives (heir_step records retired.now change.now) records client.old client.new result }
    ensures named { 1 ≤ retired.now.by }
    ensures closes { HeirCloses client.old client.new result }
    ensures disk { UsesDisk (IsErrOf result (ResetRefusal.Client ClientRefusal.DiskFault)) client.old client.new }
{
    let by = retired.by();
    if is_shut(client) {
        return Err(ResetRefusal::Client(ClientRefusal::Closed));
    }
    if by != client.ident() {
        return Err(ResetRefusal::NotMine);
    }
    let got = change.number();
    let known = retired.number() as u64 + client.last() as u64;
    if got as u64 > known + 1 {
        let expected = known + 1;
        return Err(ResetRefusal::Skips { expected, got });
    }
    if got <= retired.number() {
        return Ok(Heir::Integrated);
    }
    if got as u64 <= known {
        return Ok(Heir::Known);
    }
    save(alloc, client, change)
}

/// Whether an earlier call closed the client.
fn is_shut<D: Disk>(client: &Client<D>) -> bool
    ensures { result ≡ is_closed client.now }
{
    match client.bind() {
        Err(ClientRefusal::Closed) => true,
        _ => false,
    }
}

/// Saves a change.
fn save<D: Disk>(
    alloc: Global,
    client: &mut Client<D>,
    change: &Change,
) -> Result<Heir, ResetRefusal>
    requires open { is_closed client.old ≡ false }
    ensures does { (records : List ClientRecord) → IsClientOf records client.old → HeirSays (save_step records change.now) records client.new result }
    ensures survives { (records : List ClientRecord) → IsClientOf records client.old → IsStored records client.old → HeirSurvives (save_step records change.now) records client.old client.new result }
    ensures closes { HeirCloses client.old client.new result }
    ensures disk { UsesDisk (IsErrOf result (ResetRefusal.Client ClientRefusal.DiskFault)) client.old client.new }
{
    let changes = match changes_of(alloc, change) {
        Ok(changes) => changes,
        Err(refusal) => return Err(refusal),
    };
    let Ok(Saved { kept, dropped }) = saved(alloc, client.objects(), &changes) else {
        return Err(ResetRefusal::NoMemory);
    };
    match client.commit(change.ms(), kept.into_vec()) {
        Ok(number) => Ok(Heir::Saved { number, dropped }),
        Err(why) => Err(ResetRefusal::Client(why)),
    }
}

/// The changeset of a change.
fn changes_of(alloc: Global, change: &Change) -> Result<Changeset, ResetRefusal>
    ensures read { IfOk result (λ changes. unspell change.now.body ≡ Ok changes.instrs) }
    ensures unread { IfErr result (IsUnread change.now) }
{
    limits_tell();
    match decode(alloc, change.ms(), change.body()) {
        Ok(changes) => Ok(changes),
        Err(DecodeRefusal::Bad(bad)) => Err(ResetRefusal::BadChange {
            number: change.number(),
            offset: bad.offset,
            rule: bad.rule,
        }),
        Err(DecodeRefusal::NoMemory) => Err(ResetRefusal::NoMemory),
    }
}
