ghost use Rattle.std.specs.Prelude.{◌≡◌, ◌≤◌, ℕ, List, Some, Ok, Err, IfOk, OnOk};
ghost use Rattle.sync_disk.specs.Disk.{Rose, Told};
ghost use Rattle.sync_io.specs.Faults.{HasRisen};
ghost use Rattle.sync_model.specs.Clients.{ClientRecord, ClientStep, client_of};
ghost use Rattle.sync_model.specs.Messages.{Message as ModelMessage};
ghost use Rattle.sync_exchange.specs.Profile.{the_profile};
ghost use Rattle.sync_client.specs.Clients.{IsClientOf};
ghost use Rattle.sync_client.specs.Sending.{Sends};
ghost use Rattle.sync_node.specs.Commands.{TellsText};
ghost use Rattle.sync_node.specs.Opening.{client_file};
ghost use Rattle.sync_node.specs.Sending.{IsErrand, StandsFor, frames_of, retire, send, text_of};
ghost use Rattle.sync_node.specs.Texts.{IsTellStatus};

use crate::frame::frame_of;
use crate::opening::{Ended, open_client};
use crate::text::write_text;
use std::alloc::Global;
use sync_client::{Client, ClientRefusal};
use sync_data::{Ident, NoMemory};
use sync_disk::Disk;
use sync_io::{Sink, Status};
use sync_messages::{Message, Retire};
use sync_trim::short_file;
use sync_words::{put, put_standing};

/// What a client over a file is to write.
#[derive(Clone, Copy, PartialEq, Eq)]
pub enum Errand {
    /// Its part of the report.
    Report,
    /// What the server has to know of it: where it has no ident, that it asks for one, else what is unsent.
    Send,
    /// Its question for the history.
    Ask,
    /// That it takes over from the client of this ident, which is given up.
    Retire { ident: Ident },
    /// What is unsent, from the number after this one on.
    Rescue { after: u32 },
    /// The short file that may stand in place of its own.
    Shrink,
}

/// The client's part of the report.
fn report<D: Disk>(alloc: Global, client: &Client<D>) -> Result<Vec<u8>, NoMemory>
    ensures { (records : List ClientRecord) → IsClientOf records client.now → IfOk result (λ text. text.items ≡ text_of Errand.Report records) }
{
    let mut out = Vec::new(alloc);
    put(&mut out, "client")?;
    put_standing(alloc, &mut out, client)?;
    Ok(out)
}

/// The message by which the server gets to know what it has to know, or why the client makes none.
fn send<D: Disk>(client: &Client<D>) -> Result<Message, ClientRefusal>
    ensures { (records : List ClientRecord) → IsClientOf records client.now → Sends (send (client_of the_profile records)) result }
{
    if client.ident() == 0 {
        client.bind()
    } else {
        client.upload()
    }
}

/// The message that gives up an ident, for a client that has its own.
fn retire<D: Disk>(client: &Client<D>, ident: Ident) -> Result<Message, ClientRefusal>
    requires { 1 ≤ ident }
    ensures { (records : List ClientRecord) → IsClientOf records client.now → Sends (retire ident (client_of the_profile records)) result }
{
    let by = client.ident();
    if by == 0 {
        return Err(ClientRefusal::NotNamed);
    }
    Ok(Message::Retire(Retire::new(ident, by)))
}

/// The frame of a message that a client makes; nothing where it refuses to make one.
fn frames_of(alloc: Global, made: Result<Message, ClientRefusal>) -> Result<Vec<u8>, NoMemory>
    ensures { (did : ClientStep ModelMessage) → Sends did made → IfOk result (λ text. text.items ≡ frames_of did.answer) }
{
    match made {
        Ok(message) => frame_of(alloc, &message),
        Err(ClientRefusal::Closed | ClientRefusal::DiskFault | ClientRefusal::NoMemory) => Err(
            NoMemory,
        ),
        Err(_) => Ok(Vec::new(alloc)),
    }
}

/// The text of an errand.
fn text_of<D: Disk>(alloc: Global, client: &Client<D>, errand: Errand) -> Result<Vec<u8>, NoMemory>
    requires { IsErrand errand }
    ensures text { (records : List ClientRecord) → IsClientOf records client.now → IfOk result (λ text. text.items ≡ text_of errand records) }
    ensures stands { (records : List ClientRecord) → IsClientOf records client.now → OnOk result (StandsFor errand records) }
{
    match errand {
        Errand::Report => report(alloc, client),
        Errand::Send => frames_of(alloc, send(client)),
        Errand::Ask => frames_of(alloc, client.ask()),
        Errand::Retire { ident } => frames_of(alloc, retire(client, ident)),
        Errand::Rescue { after } => frames_of(alloc, client.upload_from(after)),
        Errand::Shrink => short_file(alloc, client),
    }
}

/// Opens the client of a disk, writes what it has to say, and hands the disk back.
pub(crate) fn write_of_client<K: Sink, D: Disk>(
    alloc: Global,
    sink: &mut K,
    disk: D,
    errand: Errand,
) -> Ended<D>
    requires { IsErrand errand }
    ensures tells { TellsText D.content D.images D.moment D.images_since client_file (text_of errand) result.status disk result.disk (K.taken sink.old) (K.taken sink.new) }
    ensures stands { Told (D.content disk) (λ b. (records : List ClientRecord) → client_file b ≡ Ok records → result.status ≡ Status.Done → StandsFor errand records) }
    ensures bad_untouched { (place : ℕ) → result.status ≡ Status.BadFile place → sink.new ≡ sink.old }
    ensures origin { D.origin result.disk ≡ D.origin disk }
    ensures disk_faults { D.faults disk ≤ D.faults result.disk }
    ensures sink_faults { K.faults sink.old ≤ K.faults sink.new }
    ensures disk_cause { result.status ≡ Status.DiskFault → Rose (D.faults disk) (D.faults result.disk) }
    ensures write_cause { result.status ≡ Status.WriteFault → HasRisen (K.faults sink.old) (K.faults sink.new) }
    ensures only { IsTellStatus result.status }
{
    let client = match open_client(alloc, disk) {
        Ok(client) => client,
        Err(ended) => return ended,
    };
    let text = text_of(alloc, &client, errand);
    let status = write_text(sink, text);
    Ended {
        status,
        disk: client.into_disk(),
    }
}
