ghost use Rattle.std.specs.Prelude.{◌≡◌, ℕ, List, true, false, IfOk, IsErrOf, OnErr};
ghost use Rattle.sync_base.specs.Effects.{CellPath};
ghost use Rattle.sync_base.specs.Footprints.{Part, SameAt};
ghost use Rattle.sync_exchange.specs.Profile.{the_profile};
ghost use Rattle.sync_exchange.specs.Seen.{message_seen};
ghost use Rattle.sync_model.specs.Clients as model;
ghost use Rattle.sync_client.specs.Clients.{Closes, IsClientOf, IsStored, Says, Survives, UsesDisk};
ghost use Rattle.sync_changed.specs.Ends.{SameEndsAt, all_spare};
ghost use Rattle.sync_changed.specs.Places.{is_told};

use std::alloc::Global;
use sync_changed::{Place, changed_by_message};
use sync_client::{Client, ClientRefusal};
use sync_data::NoMemory;
use sync_disk::Disk;
use sync_messages::Message;

/// What a message did: the client's answer, and the places of its objects that may be other than before.
#[derive(Drop)]
pub struct Taken {
    pub answer: Result<u32, ClientRefusal>,
    pub places: Vec<Place>,
}

/// Takes a message, as `Client::take`, and tells what may have changed: all else is as it was, whatever the answer, while the
/// client isn't closed; of a list where elements are told, those before each of its places and behind each. Where there is no
/// memory to tell it, the message isn't taken, and nothing changes.
pub fn take<D: Disk>(
    alloc: Global,
    client: &mut Client<D>,
    message: Message,
) -> Result<Taken, NoMemory>
    ensures step { (records : List model.ClientRecord) → IsClientOf records client.old → IfOk result (λ taken. Says (model.take the_profile (model.client_of the_profile records) (message_seen message)) records client.new taken.answer) }
    ensures survives { (records : List model.ClientRecord) → IsClientOf records client.old → IsStored records client.old → IfOk result (λ taken. Survives (model.take the_profile (model.client_of the_profile records) (message_seen message)) records client.old client.new taken.answer) }
    ensures told { (records after : List model.ClientRecord) → IsClientOf records client.old → IsClientOf after client.new
        → IfOk result (λ taken. (x : Part) → is_told taken.places.items x ≡ false → SameAt (model.client_of the_profile after).objects (model.client_of the_profile records).objects x) }
    ensures ends { (records after : List model.ClientRecord) → IsClientOf records client.old → IsClientOf after client.new
        → IfOk result (λ taken. (front back : ℕ) (list : CellPath) → all_spare front back list taken.places.items ≡ true → SameEndsAt front back list (model.client_of the_profile after).objects (model.client_of the_profile records).objects) }
    ensures closes { IfOk result (λ taken. Closes client.old client.new taken.answer) }
    ensures disk { IfOk result (λ taken. UsesDisk (IsErrOf taken.answer ClientRefusal.DiskFault) client.old client.new) }
    ensures unchanged { OnErr result (client.new ≡ client.old) }
{
    let unsent = client.unsent();
    let places = match changed_by_message(alloc, &message, unsent) {
        Ok(places) => places,
        Err(_) => {
            let_go(message);
            return Err(NoMemory);
        }
    };
    let answer = client.take(message);
    // The objects are those of whichever records the client now stands for.
    let _ = client.objects();
    Ok(Taken { answer, places })
}

/// Drops a value, so that no caller's proof has the cases of its kind.
fn let_go<T: Drop>(_: T) {}
