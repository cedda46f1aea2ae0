// The calls of a client over a file, each answered by its outcome line.
ghost use Rattle.std.specs.Prelude.{◌≡◌, ◌≤◌, ℕ, List, Some, Ok, Err, IfOk};
ghost use Rattle.sync_disk.specs.Disk.{Rose};
ghost use Rattle.sync_model.specs.Clients as model;
ghost use Rattle.sync_exchange.specs.Profile.{the_profile};
ghost use Rattle.sync_exchange.specs.Seen.{message_seen};
ghost use Rattle.sync_words.specs.Outcomes.{outcome_text};
ghost use Rattle.sync_node.specs.Holding.{ClientStands, client_faults, client_origin};
ghost use Rattle.sync_node.specs.Runs.{AnswersSo};
ghost use Rattle.sync_node.specs.Steps.{born_words, line_answer, made_words, said, subscribe_words, take_answer, took_words, upgrade_words};

use super::command::ItemEnd;
use super::outcome::{decline, say};
use std::alloc::Global;
use sync_client::Client;
use sync_disk::Disk;
use sync_edits::NodeLine;
use sync_messages::Message;
use sync_subset::Subset;
use sync_words::Outcome;

/// That a file is in form 2 now, or was before.
fn upgraded(is_new: bool) -> Outcome
    ensures { outcome_text result ≡ Some (upgrade_words is_new) }
{
    if is_new {
        Outcome::Upgraded
    } else {
        Outcome::Current
    }
}

/// The client takes a message.
pub(crate) fn take<D: Disk>(
    alloc: Global,
    client: &mut Client<D>,
    number: u32,
    message: Message,
) -> Result<Vec<u8>, ItemEnd>
    ensures done { (records : List model.ClientRecord) → ClientStands records client.old
        → IfOk result (λ text. AnswersSo (Some (take_answer records number (message_seen message))) records text.items (λ rs. ClientStands rs client.new)) }
    ensures bad { result ≡ Err ItemEnd.BadItem → ⊥ }
    ensures same { client_origin client.new ≡ client_origin client.old }
    ensures later { client_faults client.old ≤ client_faults client.new }
    ensures cause { result ≡ Err ItemEnd.DiskFault → Rose (client_faults client.old) (client_faults client.new) }
{
    match client.take(message) {
        Ok(cursor) => say(alloc, number, &Outcome::Took { cursor }),
        Err(refusal) => decline(alloc, number, refusal),
    }
}

/// The client does what a node line says.
pub(crate) fn take_line<D: Disk>(
    alloc: Global,
    client: &mut Client<D>,
    number: u32,
    line: NodeLine,
) -> Result<Vec<u8>, ItemEnd>
    ensures done { (records : List model.ClientRecord) → ClientStands records client.old
        → IfOk result (λ text. AnswersSo (Some (line_answer records number line)) records text.items (λ rs. ClientStands rs client.new)) }
    ensures bad { result ≡ Err ItemEnd.BadItem → ⊥ }
    ensures same { client_origin client.new ≡ client_origin client.old }
    ensures later { client_faults client.old ≤ client_faults client.new }
    ensures cause { result ≡ Err ItemEnd.DiskFault → Rose (client_faults client.old) (client_faults client.new) }
{
    match line {
        NodeLine::Born { id } => match client.born(id) {
            Ok(()) => say(alloc, number, &Outcome::Born),
            Err(refusal) => decline(alloc, number, refusal),
        },
        NodeLine::Commit { ms, edits } => match client.commit(ms, edits.into_vec()) {
            Ok(made) => say(alloc, number, &Outcome::Made { number: made }),
            Err(refusal) => decline(alloc, number, refusal),
        },
        NodeLine::Upgrade => match client.upgrade() {
            Ok(is_new) => say(alloc, number, &upgraded(is_new)),
            Err(refusal) => decline(alloc, number, refusal),
        },
        NodeLine::Subscribe { tables } => match client.subscribe(tables) {
            Ok(()) => say(alloc, number, &Outcome::Subscribed),
            Err(refusal) => decline(alloc, number, refusal),
        },
    }
}
