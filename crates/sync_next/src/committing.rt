ghost use Rattle.std.specs.Prelude.{◌≡◌, List, Some, IsErrOf};
ghost use Rattle.sync_base.specs.Checks.{act_all};
ghost use Rattle.sync_base.specs.States.{State};
ghost use Rattle.sync_data.specs.Payload.{IsSmall};
ghost use Rattle.sync_exchange.specs.Profile.{the_profile};
ghost use Rattle.sync_model.specs.Clients as model;
ghost use Rattle.sync_client.specs.Clients.{Closes, IsClientOf, IsStored, Says, Survives, UsesDisk};
ghost use Rattle.sync_next.specs.Commits.{IsNoBreak};

use sync_client::{Client, ClientRefusal};
use sync_data::Instr;
use sync_disk::Disk;

/// Commits the instructions of a transaction, as `Client::commit`. Where they act on the client's objects, `Break` isn't answered,
/// and where they are few and small enough, `TooLarge` isn't. Those of a `Transaction` that was begun for these objects are both.
pub fn commit<D: Disk>(
    client: &mut Client<D>,
    ms: u64,
    edits: Vec<Instr>,
) -> Result<u32, ClientRefusal>
    ensures step { (records : List model.ClientRecord) → IsClientOf records client.old → Says (model.commit the_profile (model.client_of the_profile records) ms edits.items) records client.new result }
    ensures survives { (records : List model.ClientRecord) → IsClientOf records client.old → IsStored records client.old → Survives (model.commit the_profile (model.client_of the_profile records) ms edits.items) records client.old client.new result }
    ensures never_too_large { IsSmall edits.items → IsErrOf result ClientRefusal.TooLarge → ⊥ }
    ensures never_breaks { (records : List model.ClientRecord) (after : State) → IsClientOf records client.old → act_all edits.items (model.client_of the_profile records).objects ≡ Some after → IsNoBreak result }
    ensures closes { Closes client.old client.new result }
    ensures disk { UsesDisk (IsErrOf result ClientRefusal.DiskFault) client.old client.new }
{
    client.commit(ms, edits)
}
