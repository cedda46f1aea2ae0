ghost use Rattle.std.specs.Prelude.{◌≡◌, ◌==◌, ◌≤◌, ◌++◌, ℕ, List, true, false, length, map, IfOk, OnOk};
ghost use Rattle.sync_base.specs.Effects.{CellPath};
ghost use Rattle.sync_base.specs.Footprints.{Part, SameAt};
ghost use Rattle.sync_exchange.specs.Profile.{the_profile};
ghost use Rattle.sync_exchange.specs.Seen.{message_seen, sent_seen};
ghost use Rattle.sync_model.specs.Clients as model;
ghost use Rattle.sync_changed.specs.Ends.{SameEndsAt, all_spare};
ghost use Rattle.sync_changed.specs.Places.{body_places, entry_places, is_told, message_places};

use super::edits::put_places;
use super::place::Place;
use std::alloc::Global;
use sync_base::NoMemory;
use sync_codec::{DecodeRefusal, decode};
use sync_exchange::limits_tell;
use sync_messages::{Message, Sent};

/// What a message may change of the objects of a client with so many unsent changesets: a place for each instruction of its
/// entries, in order. All else is as it was, once the client has taken it, or some of its entries, or refused it. Of a list the
/// elements are told where nothing is unsent, and else the cell: unsent insertions and removals shift an entry's places.
pub fn changed_by_message(
    alloc: Global,
    message: &Message,
    unsent: u32,
) -> Result<Vec<Place>, NoMemory>
    ensures places { IfOk result (λ places. places.items ≡ message_places (unsent == 0) (message_seen message.now)) }
    ensures told { IfOk result (λ places. (records : List model.ClientRecord) (x : Part) → is_told places.items x ≡ false
        → SameAt (model.client_of the_profile (records ++ (model.take the_profile (model.client_of the_profile records) (message_seen message.now)).records)).objects (model.client_of the_profile records).objects x) }
    ensures ends { IfOk result (λ places. (records : List model.ClientRecord) (front back : ℕ) (list : CellPath) → length (model.client_of the_profile records).unsent ≡ unsent → all_spare front back list places.items ≡ true
        → SameEndsAt front back list (model.client_of the_profile (records ++ (model.take the_profile (model.client_of the_profile records) (message_seen message.now)).records)).objects (model.client_of the_profile records).objects) }
{
    places_of(alloc, message, unsent == 0)
}

fn places_of(alloc: Global, message: &Message, exact: bool) -> Result<Vec<Place>, NoMemory>
    ensures { IfOk result (λ places. places.items ≡ message_places exact (message_seen message.now)) }
{
    let mut places = Vec::new(alloc);
    match message {
        Message::Download(download) => put_entries(alloc, &mut places, download.entries(), exact)?,
        _ => {}
    }
    Ok(places)
}

fn put_entries(
    alloc: Global,
    places: &mut Vec<Place>,
    entries: &[Sent],
    exact: bool,
) -> Result<(), NoMemory>
    ensures { OnOk result (places.new.items ≡ places.old.items ++ entry_places exact (map sent_seen entries.now)) }
{
    for entry in entries {
        put_body(alloc, places, entry.body(), exact)?;
    }
    Ok(())
}

/// Puts the places that the instructions of an entry may change; none where its bytes spell none.
fn put_body(
    alloc: Global,
    places: &mut Vec<Place>,
    body: &[u8],
    exact: bool,
) -> Result<(), NoMemory>
    requires { length body.now ≤ 67108864 }
    ensures { OnOk result (places.new.items ≡ places.old.items ++ body_places exact body.now) }
{
    limits_tell();
    match decode(alloc, 0, body) {
        Ok(changes) => put_places(places, changes.instrs(), exact),
        Err(DecodeRefusal::Bad(_)) => Ok(()),
        Err(DecodeRefusal::NoMemory) => Err(NoMemory),
    }
}
