ghost use Rattle.std.specs.Prelude.{◌≡◌, ◌++◌, IfOk, IfSome, OnOk};
ghost use Rattle.sync_model.specs.Worlds as model;
ghost use Rattle.sync_exchange.specs.Seen.{message_seen};
ghost use Rattle.sync_words.specs.Outcomes.{outcome_text};
ghost use Rattle.sync_words.specs.Words.{outcome_line, refused, reply_text, said, words_text};

use super::text::{put, put_name, put_number, put_said};
use std::alloc::Global;
use sync_client::ClientRefusal;
use sync_data::{Name, NoMemory};
use sync_messages::Message;

/// What an event of an exchange came to, or a line or a frame of a command (docs/FORMATS.md, "Outcome lines").
#[derive(Drop)]
pub enum Outcome {
    /// The client of a file has its uuid from now on.
    Born,
    /// There is one more client, of this name.
    Joined { name: Name },
    /// The client's transaction of this number is made.
    Made { number: u32 },
    /// A client's message has this place, counted from 1.
    Messaged { place: u64 },
    /// A client has taken a message, and its cursor is this.
    Took { cursor: u32 },
    /// The server's reply has this place, counted from 1.
    Replied { place: u64, reply: Message },
    /// The node is open again.
    Opened,
    /// The node's disk is to stop.
    Armed,
    /// The node's disk has stopped.
    Stopped,
    /// The client's file is in form 2 from now on.
    Upgraded,
    /// The client's file was in form 2 already.
    Current,
    /// The client has its tables from now on.
    Subscribed,
    /// A client refuses. `Closed`, `DiskFault` and `NoMemory` have no words.
    Declined { why: ClientRefusal },
    /// The name is the server's or a client's.
    NameTaken,
    /// A client has the uuid, or an injected Bind named it.
    UuidTaken,
    /// No node has the name.
    NoNode,
    /// No message of that number was made.
    NoMessage,
    /// The bytes are no message.
    BadMessage,
    /// The message names an ident that belongs to a client of this exchange.
    OwnIdent,
}

/// Puts the name of a refusal and its fields.
fn put_refused(
    alloc: Global,
    out: &mut Vec<u8>,
    reason: &str,
    fields: &[u64],
) -> Result<(), NoMemory>
    ensures { OnOk result (out.new.items ≡ out.old.items ++ refused reason.now fields.now) }
{
    put(out, "refused ")?;
    put_said(alloc, out, reason, fields)
}

/// Puts that there is one more client, of this name.
fn put_joined(alloc: Global, out: &mut Vec<u8>, name: &Name) -> Result<(), NoMemory>
    ensures { OnOk result (out.new.items ≡ out.old.items ++ words_text (model.Joined name.now)) }
{
    put(out, "client ")?;
    put_name(alloc, out, name)
}

/// Puts what a reply says.
fn put_reply(alloc: Global, out: &mut Vec<u8>, reply: &Message) -> Result<(), NoMemory>
    ensures { OnOk result (out.new.items ≡ out.old.items ++ reply_text (message_seen reply.now)) }
{
    match reply {
        Message::Ident(given) => put_said(alloc, out, " ident", &[given.ident() as u64]),
        Message::Stored(stored) => put_said(
            alloc,
            out,
            " stored",
            &[stored.ident() as u64, stored.number() as u64],
        ),
        Message::Download(download) => put_said(
            alloc,
            out,
            " download",
            &[
                download.ident() as u64,
                download.from() as u64,
                download.entries().len() as u64,
            ],
        ),
        Message::Refused {
            ident,
            number,
            code,
            place,
        } => put_said(
            alloc,
            out,
            " refused",
            &[*ident as u64, *number as u64, *code as u64, *place as u64],
        ),
        Message::Retired(retired) => put_said(
            alloc,
            out,
            " retired",
            &[
                retired.ident() as u64,
                retired.by() as u64,
                retired.number() as u64,
            ],
        ),
        _ => Ok(()),
    }
}

/// Puts why a client refuses.
fn put_declined(alloc: Global, out: &mut Vec<u8>, why: ClientRefusal) -> Result<(), NoMemory>
    ensures { IfSome (outcome_text (Outcome.Declined why)) (λ text. OnOk result (out.new.items ≡ out.old.items ++ text)) }
{
    match why {
        ClientRefusal::NotBorn => put_refused(alloc, out, "NotBorn", &[]),
        ClientRefusal::AlreadyBorn => put_refused(alloc, out, "AlreadyBorn", &[]),
        ClientRefusal::NotNamed => put_refused(alloc, out, "NotNamed", &[]),
        ClientRefusal::TooLarge => put_refused(alloc, out, "TooLarge", &[]),
        ClientRefusal::NumbersFull => put_refused(alloc, out, "NumbersFull", &[]),
        ClientRefusal::OldForm { place } => put_refused(alloc, out, "OldForm", &[place as u64]),
        ClientRefusal::NotSubscribed { place } => {
            put_refused(alloc, out, "NotSubscribed", &[place as u64])
        }
        ClientRefusal::Break { place, code } => {
            put_refused(alloc, out, "Break", &[place as u64, code as u64])
        }
        ClientRefusal::NotMine => put_refused(alloc, out, "NotMine", &[]),
        ClientRefusal::IdentDiffers { kept, got } => {
            put_refused(alloc, out, "IdentDiffers", &[kept as u64, got as u64])
        }
        ClientRefusal::Gap { cursor, from } => {
            put_refused(alloc, out, "Gap", &[cursor as u64, from as u64])
        }
        ClientRefusal::BadBody {
            version,
            offset,
            rule,
        } => put_refused(
            alloc,
            out,
            "BadBody",
            &[version as u64, offset as u64, rule as u64],
        ),
        ClientRefusal::OldEntry { version } => put_refused(
            alloc,
            out,
            "OldEntry",
            &[version as u64],
        ),
        ClientRefusal::Mismatch {
            version,
            number,
            kind,
        } => put_refused(
            alloc,
            out,
            "Mismatch",
            &[version as u64, number as u64, kind as u64],
        ),
        ClientRefusal::Forked { number } => put_refused(alloc, out, "Forked", &[number as u64]),
        ClientRefusal::NotApplicable {
            version,
            place,
            code,
        } => put_refused(
            alloc,
            out,
            "NotApplicable",
            &[version as u64, place as u64, code as u64],
        ),
        ClientRefusal::WasRefused { number, code } => {
            put_refused(alloc, out, "WasRefused", &[number as u64, code as u64])
        }
        ClientRefusal::Subscribed => put_refused(alloc, out, "Subscribed", &[]),
        ClientRefusal::TooLate => put_refused(alloc, out, "TooLate", &[]),
        ClientRefusal::Closed | ClientRefusal::DiskFault | ClientRefusal::NoMemory => { Ok(()) }
    }
}

impl Outcome {
    /// Puts its words.
    fn put_words(&self, alloc: Global, out: &mut Vec<u8>) -> Result<(), NoMemory>
        ensures { IfSome (outcome_text self.now) (λ text. OnOk result (out.new.items ≡ out.old.items ++ text)) }
    {
        match self {
            Outcome::Born => put(out, "born"),
            Outcome::Joined { name } => put_joined(alloc, out, name),
            Outcome::Made { number } => put_said(alloc, out, "made", &[*number as u64]),
            Outcome::Messaged { place } => put_said(alloc, out, "message", &[*place]),
            Outcome::Took { cursor } => put_said(alloc, out, "took", &[*cursor as u64]),
            Outcome::Replied { place, reply } => {
                put_said(alloc, out, "reply", &[*place])?;
                put_reply(alloc, out, reply)
            }
            Outcome::Opened => put(out, "opened"),
            Outcome::Armed => put(out, "armed"),
            Outcome::Stopped => put(out, "stopped"),
            Outcome::Upgraded => put(out, "upgraded"),
            Outcome::Current => put(out, "current"),
            Outcome::Subscribed => put(out, "subscribed"),
            Outcome::Declined { why } => put_declined(alloc, out, *why),
            Outcome::NameTaken => put(out, "refused NameTaken"),
            Outcome::UuidTaken => put(out, "refused UuidTaken"),
            Outcome::NoNode => put(out, "refused NoNode"),
            Outcome::NoMessage => put(out, "refused NoMessage"),
            Outcome::BadMessage => put(out, "refused BadMessage"),
            Outcome::OwnIdent => put(out, "refused OwnIdent"),
        }
    }

    /// Its line: the number of the line or frame, a space and the words (docs/FORMATS.md, "Outcome lines").
    pub fn line(&self, alloc: Global, number: u32) -> Result<Vec<u8>, NoMemory>
        ensures { IfSome (outcome_text self.now) (λ text. IfOk result (λ line. line.items ≡ outcome_line number text)) }
    {
        let mut out = Vec::new(alloc);
        put_number(alloc, &mut out, number as u64)?;
        put(&mut out, " ")?;
        self.put_words(alloc, &mut out)?;
        put(&mut out, "\n")?;
        Ok(out)
    }
}
