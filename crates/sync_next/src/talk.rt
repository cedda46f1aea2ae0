// What a client may send since its file was opened.
ghost use Rattle.std.specs.Prelude.{◌≡◌, List, ℕ, None, true, false, IfOk, IsErrOf, OnErr};
ghost use Rattle.sync_base.specs.Effects.{CellPath};
ghost use Rattle.sync_base.specs.Footprints.{Part, SameAt};
ghost use Rattle.sync_exchange.specs.Profile.{the_profile};
ghost use Rattle.sync_exchange.specs.Seen.{message_seen};
ghost use Rattle.sync_model.specs.Clients as model;
ghost use Rattle.sync_client.specs.Clients.{Closes, IsClientOf, IsStored, Says, Survives, UsesDisk};
ghost use Rattle.sync_client.specs.Sending.{Sends};
ghost use Rattle.sync_changed.specs.Ends.{SameEndsAt, all_spare};
ghost use Rattle.sync_changed.specs.Places.{is_told};
ghost use Rattle.sync_next.specs.Talks.{TalksNext, after_answer, after_taken, heard_in, is_question, next_of, stale_by, stale_by_code};
ghost use Rattle.sync_next.specs.Nexts.{sent_by};

use crate::next::{message_above, sent_by};
use crate::taking::{Taken, take};
use std::alloc::Global;
use sync_client::{Client, ClientRefusal};
use sync_data::NoMemory;
use sync_disk::Disk;
use sync_messages::Message;

/// Why nothing more is sent from a client's file. Its unsent changesets stay in it, and a new client, with a uuid and a file
/// of its own, can take over from it (docs/EMBEDDING.md).
#[derive(Clone, Copy, Debug, PartialEq, Eq)]
pub enum Stale {
    /// The file was copied or restored from a backup: the server has other changesets under its numbers.
    File,
    /// The server has less than the client took: it is another one, or its own file was restored.
    Server,
    /// The client's ident was given up.
    Ident,
    /// The server gave up the history that the client needs.
    History,
}

/// What a message says that decides what is sent next.
#[derive(Clone, Copy, PartialEq, Eq)]
pub(crate) enum Heard {
    /// The server has the client's changesets up to this number.
    Stored(u32),
    /// The history has nothing from this version on.
    End(u32),
    Other,
}

/// What a client sends in turn since its file was opened. It asks before it uploads: only once the server has said that the
/// history has nothing beyond the cursor does an Upload go out, since a file that was copied or restored would upload other
/// changesets under numbers that the server has. Where the server says that this is so, nothing more is sent.
#[derive(Clone, Copy, Debug, PartialEq, Eq)]
pub struct Talk {
    pub(crate) stale: Option<Stale>,
    pub(crate) verified: bool,
    pub(crate) held_up: bool,
    pub(crate) asked: bool,
    pub(crate) probed: bool,
    pub(crate) sent: u32,
}

/// Why a client sends nothing more that the server refused by this code (docs/FORMATS.md, "Outcome lines").
fn stale_by_code(code: u32) -> Option<Stale>
    ensures { result ≡ stale_by_code code }
{
    if code == 61 || code == 63 {
        Some(Stale::Server)
    } else if code == 62 {
        Some(Stale::File)
    } else if code == 68 {
        Some(Stale::Ident)
    } else if code == 71 {
        Some(Stale::History)
    } else {
        None
    }
}

/// Why a client that refuses so sends nothing more.
fn stale_by(refusal: ClientRefusal) -> Option<Stale>
    ensures { result ≡ stale_by refusal }
{
    match refusal {
        ClientRefusal::Forked { number: _ } => Some(Stale::File),
        ClientRefusal::WasRefused { number: _, code } => stale_by_code(code),
        _ => None,
    }
}

fn heard_in(message: &Message) -> Heard
    ensures { result ≡ heard_in (message_seen message.now) }
{
    match message {
        Message::Stored(stored) => Heard::Stored(stored.number()),
        Message::Download(download) => {
            if download.entries().is_empty() {
                Heard::End(download.from())
            } else {
                Heard::Other
            }
        }
        _ => Heard::Other,
    }
}

/// Whether it asks for the history.
fn is_question(message: &Message) -> bool
    ensures { result ≡ is_question (message_seen message.now) }
{
    matches!(
        message,
        Message::Ask(_) | Message::Ask2(_) | Message::AskTables(_)
    )
}

impl Talk {
    /// The file was just opened.
    pub fn new() -> Talk
        ensures { result ≡ record { stale = None; verified = false; held_up = false; asked = false; probed = false; sent = 0 } }
    {
        Talk {
            stale: None,
            verified: false,
            held_up: false,
            asked: false,
            probed: false,
            sent: 0,
        }
    }

    /// Why nothing more is sent, if that is so.
    pub fn stale(&self) -> Option<Stale>
        ensures { result ≡ self.now.stale }
    {
        self.stale
    }

    /// The message to send now: the question for the ident; then questions until the server has said that the history ends at
    /// the cursor, or, of a client that a mismatch holds up, an Upload without changesets, whose answer tells the same; then
    /// what `next_message` says. None where nothing more is sent. Errors: Closed, NotBorn, NoMemory; none changes anything.
    pub fn next<D: Disk>(&mut self, client: &Client<D>) -> Result<Option<Message>, ClientRefusal>
        ensures step { (records : List model.ClientRecord) → IsClientOf records client.now → TalksNext self.old (model.client_of the_profile records) self.new result }
        ensures unchanged { OnErr result (self.new ≡ self.old) }
    {
        if self.stale.is_some() {
            return Ok(None);
        }
        let message = match self.message(client) {
            Ok(message) => message,
            Err(refusal) => return Err(refusal),
        };
        self.asked = is_question(&message);
        self.probed = !self.verified && self.held_up;
        self.sent = sent_by(&message, self.sent);
        Ok(Some(message))
    }

    fn message<D: Disk>(&self, client: &Client<D>) -> Result<Message, ClientRefusal>
        ensures { (records : List model.ClientRecord) → IsClientOf records client.now → Sends (next_of self.now (model.client_of the_profile records)) result }
    {
        if self.verified {
            return message_above(client, self.sent);
        }
        if client.ident() == 0 {
            return client.bind();
        }
        if self.held_up {
            return client.upload_from(u32::MAX);
        }
        client.ask()
    }

    /// What an answer to such a message makes of it.
    fn answered(&mut self, heard: Heard, answer: Result<u32, ClientRefusal>, last: u32, unsent: u32)
        ensures { self.new ≡ after_answer self.old heard answer last unsent }
    {
        let was = *self;
        self.asked = false;
        self.probed = false;
        self.held_up = false;
        match answer {
            Ok(cursor) => match heard {
                Heard::Stored(number) => {
                    if last < number {
                        self.stale = Some(Stale::File);
                    }
                    self.verified = was.verified
                        || (was.probed && number == last.saturating_sub(unsent));
                }
                Heard::End(from) => self.verified = was.verified || (was.asked && from == cursor),
                Heard::Other => {}
            },
            Err(refusal) => {
                self.verified = false;
                self.sent = 0;
                self.held_up = matches!(refusal, ClientRefusal::Mismatch { .. });
                if was.stale.is_none() {
                    self.stale = stale_by(refusal);
                }
            }
        }
    }

    /// Takes a message, as `take`, and what it says of what is sent next.
    pub fn take<D: Disk>(
        &mut self,
        alloc: Global,
        client: &mut Client<D>,
        message: Message,
    ) -> Result<Taken, NoMemory>
        ensures step { (records : List model.ClientRecord) → IsClientOf records client.old → IfOk result (λ taken. Says (model.take the_profile (model.client_of the_profile records) (message_seen message)) records client.new taken.answer) }
        ensures survives { (records : List model.ClientRecord) → IsClientOf records client.old → IsStored records client.old → IfOk result (λ taken. Survives (model.take the_profile (model.client_of the_profile records) (message_seen message)) records client.old client.new taken.answer) }
        ensures told { (records after : List model.ClientRecord) → IsClientOf records client.old → IsClientOf after client.new
            → IfOk result (λ taken. (x : Part) → is_told taken.places.items x ≡ false → SameAt (model.client_of the_profile after).objects (model.client_of the_profile records).objects x) }
        ensures ends { (records after : List model.ClientRecord) → IsClientOf records client.old → IsClientOf after client.new
            → IfOk result (λ taken. (front back : ℕ) (list : CellPath) → all_spare front back list taken.places.items ≡ true → SameEndsAt front back list (model.client_of the_profile after).objects (model.client_of the_profile records).objects) }
        ensures closes { IfOk result (λ taken. Closes client.old client.new taken.answer) }
        ensures disk { IfOk result (λ taken. UsesDisk (IsErrOf taken.answer ClientRefusal.DiskFault) client.old client.new) }
        ensures talk { (after : List model.ClientRecord) → IsClientOf after client.new → IfOk result (λ taken. self.new ≡ after_taken self.old (message_seen message) taken.answer (model.client_of the_profile after)) }
        ensures unchanged { OnErr result ((client.new ≡ client.old) × (self.new ≡ self.old)) }
    {
        let heard = heard_in(&message);
        let taken = match take(alloc, client, message) {
            Ok(taken) => taken,
            Err(NoMemory) => return Err(NoMemory),
        };
        self.answered(heard, taken.answer, client.last(), client.unsent());
        Ok(taken)
    }
}
