ghost use Rattle.std.specs.Prelude.{◌≡◌, ◌↔◌, List, true, IsErrOf};
ghost use Rattle.sync_exchange.specs.Profile.{the_profile};
ghost use Rattle.sync_exchange.specs.Seen.{message_seen};
ghost use Rattle.sync_model.specs.Clients as model;
ghost use Rattle.sync_client.specs.Clients.{IsClientOf, is_closed};
ghost use Rattle.sync_client.specs.Sending.{Sends};
ghost use Rattle.sync_next.specs.Nexts.{SendsNext, bears_none, next_message, sent_by};

use sync_client::{Client, ClientRefusal};
use sync_disk::Disk;
use sync_messages::Message;

/// A message, and up to which number the client's changesets are sent with it.
#[derive(Drop)]
pub struct Next {
    pub message: Message,
    pub sent: u32,
}

/// What a client sends next: the question for its ident, where it has none; else its unsent changesets with a number above
/// `sent`, up to which they are sent; and where there is none, the question for the history. Whoever begins anew, as after a
/// lost connection, gives 0: what is sent again does no harm. Errors: Closed, NotBorn, NoMemory; none changes anything.
pub fn next_message<D: Disk>(client: &Client<D>, sent: u32) -> Result<Next, ClientRefusal>
    ensures step { (records : List model.ClientRecord) → IsClientOf records client.now → SendsNext (next_message (model.client_of the_profile records) sent) sent result }
    ensures closed { IsErrOf result ClientRefusal.Closed ↔ (is_closed client.now ≡ true) }
{
    match message_above(client, sent) {
        Ok(message) => {
            let sent = sent_by(&message, sent);
            Ok(Next { message, sent })
        }
        Err(refusal) => Err(refusal),
    }
}

pub(crate) fn message_above<D: Disk>(
    client: &Client<D>,
    sent: u32,
) -> Result<Message, ClientRefusal>
    ensures step { (records : List model.ClientRecord) → IsClientOf records client.now → Sends (next_message (model.client_of the_profile records) sent) result }
    ensures closed { IsErrOf result ClientRefusal.Closed ↔ (is_closed client.now ≡ true) }
{
    if client.ident() == 0 {
        return client.bind();
    }
    let changes = match client.upload_from(sent) {
        Ok(changes) => changes,
        Err(refusal) => return Err(refusal),
    };
    if bears_none(&changes) {
        return client.ask();
    }
    Ok(changes)
}

/// Whether it is an Upload without changes.
fn bears_none(message: &Message) -> bool
    ensures { result ≡ bears_none (message_seen message.now) }
{
    match message {
        Message::Upload(upload) => upload.changes().is_empty(),
        _ => false,
    }
}

/// The number of the last change of an Upload, or else this number.
pub(crate) fn sent_by(message: &Message, sent: u32) -> u32
    ensures { result ≡ sent_by (message_seen message.now) sent }
{
    match message {
        Message::Upload(upload) => match upload.changes().last() {
            Some(change) => change.number(),
            None => sent,
        },
        _ => sent,
    }
}
