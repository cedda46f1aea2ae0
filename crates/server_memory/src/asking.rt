ghost use Rattle.std.specs.Prelude.{◌≡◌, ◌≤◌, ◌-◌, ◌∷◌, [], ℕ, Bool, Option, length, map, drop, All, IfOk, Some, true};
ghost use Rattle.std.specs.Option.{option_copied, option_map};
ghost use Rattle.sync_recip.specs.Lists.{entry_of};
ghost use Rattle.sync_transform.specs.Sets.{made_by};
ghost use Rattle.sync_subset.specs.Tables.{Tables, restrict};
ghost use Rattle.sync_messages.specs.Parts.{most_listed, most_bytes, bytes_of_entries};
ghost use Rattle.sync_exchange.specs.Profile.{the_profile};
ghost use Rattle.sync_exchange.specs.Seen.{message_seen, sent_seen};
ghost use Rattle.sync_model.specs.Parts.{Given as GivenParts, at_ident};
ghost use Rattle.sync_model.specs.Profile.{restricted};
ghost use Rattle.sync_data.specs.declared.instr.Instr.{Instr};
ghost use Rattle.server_memory.specs.History.{IsEntry, len_of};
ghost use Rattle.server_memory.specs.Refusals.{refusal_seen};
ghost use Rattle.server_memory.specs.Sending.{Settles, asked, fits_next, given_to, refusal_message, sendable};
ghost use Rattle.server_memory.specs.Sending as sending;

use crate::kept::Kept;
use crate::lists::keep;
use crate::refusal::Refusal;
use crate::version::needs_second;
use std::alloc::Global;
use sync_base::{Blob, Changeset, Entry, Ident, NoMemory};
use sync_codec::encode;
use sync_messages::{Ask, Download, Message, Sent};
use sync_recip::SharedEntry;
use sync_subset::Subset;

/// The most entries of a Download, and the most bytes that they have together.
const MOST_LISTED: usize = 4_096;

const MOST_BYTES: usize = 16_777_216;

/// A refusal of the change of that number, or of a whole message where it is 0.
pub fn refuse(ident: Ident, number: u32, why: Refusal) -> Message
    ensures { message_seen result ≡ refusal_message ident number (refusal_seen why) }
{
    Message::Refused {
        ident,
        number,
        code: why.code(),
        place: why.place(),
    }
}

/// What is left of an entry for a client of these tables.
fn part_of(entry: &Entry, tables: &Subset) -> Result<Changeset, NoMemory>
    ensures { IfOk result (λ part. part ≡ record { ms = entry.now.changes.ms; instrs = restrict tables.now entry.now.changes.instrs }) }
{
    let changes = entry.changes.copy()?;
    Ok(tables.restrict(changes))
}

/// A changeset of an origin as a Download bears it, where the client takes it and there is room.
fn sent_of(
    alloc: Global,
    origin: Ident,
    number: u32,
    changes: &Changeset,
    room: usize,
    second: bool,
) -> Result<Option<Sent>, NoMemory>
    requires made { 1 ≤ origin }
    requires numbered { 1 ≤ number }
    requires room { room ≤ most_bytes }
    ensures { IfOk result (λ sent. option_map sent_seen sent ≡ fits_next second room (made_by origin number changes.now)) }
{
    if !second && needs_second(changes.instrs()) {
        return Ok(None);
    }
    let body = match encode(alloc, changes) {
        Ok(body) => body,
        Err(_) => return Err(NoMemory),
    };
    if body.len() > room {
        return Ok(None);
    }
    let body = Blob::new(alloc, &body)?;
    Ok(Some(Sent::new(origin, number, changes.ms(), body)))
}

/// What is left of an entry for the client, where the client takes it and there is room.
fn next_sent(
    alloc: Global,
    entry: &Entry,
    room: usize,
    second: bool,
    tables: Option<&Subset>,
) -> Result<Option<Sent>, NoMemory>
    requires entry { (given : ℕ) × IsEntry given (entry_of entry.now) }
    requires room { room ≤ most_bytes }
    ensures { IfOk result (λ sent. option_map sent_seen sent ≡ fits_next second room (restricted the_profile (option_copied tables.entry) (entry_of entry.now))) }
{
    let (origin, number) = (entry.origin, entry.number);
    match tables {
        None => sent_of(alloc, origin, number, &entry.changes, room, second),
        Some(tables) => {
            let part = part_of(entry, tables)?;
            sent_of(alloc, origin, number, &part, room, second)
        }
    }
}

/// The longest beginning of what is left of the entries for the client that a Download may bear.
fn sent_entries(
    alloc: Global,
    entries: &[SharedEntry],
    second: bool,
    tables: Option<&Subset>,
) -> Result<Vec<Sent>, NoMemory>
    requires { (given : ℕ) × All (λ e. IsEntry given (entry_of e)) entries.now }
    ensures sent { IfOk result (λ sent. map sent_seen sent.items ≡ sendable second (given_to (option_copied tables.entry) (map entry_of entries.now))) }
    ensures few { IfOk result (λ sent. length sent.items ≤ most_listed) }
    ensures small { IfOk result (λ sent. bytes_of_entries sent.items ≤ most_bytes) }
    ensures short { IfOk result (λ sent. length sent.items ≤ length entries.now) }
{
    let Ok(mut sent) = Vec::with_capacity(alloc, entries.len().min(MOST_LISTED)) else {
        return Err(NoMemory);
    };
    let mut room = MOST_BYTES;
    for shared in entries {
        if sent.len() == MOST_LISTED {
            return Ok(sent);
        }
        match next_sent(alloc, shared.entry(), room, second, tables) {
            Ok(Some(next)) => {
                room -= next.body().len();
                keep(&mut sent, next)?;
            }
            Ok(None) => return Ok(sent),
            Err(NoMemory) => return Err(NoMemory),
        }
    }
    Ok(sent)
}

/// Whether what is left of the entry for the client is of version 2.
fn is_second(entry: &Entry, tables: Option<&Subset>) -> Result<bool, NoMemory>
    ensures { IfOk result (λ second. second ≡ sending.starts_second (given_to (option_copied tables.entry) (entry_of entry.now ∷ []))) }
{
    match tables {
        None => Ok(needs_second(entry.changes.instrs())),
        Some(tables) => match part_of(entry, tables) {
            Ok(part) => Ok(needs_second(part.instrs())),
            Err(NoMemory) => Err(NoMemory),
        },
    }
}

/// Whether what is left of the first of the entries is of version 2.
fn starts_second(entries: &[SharedEntry], tables: Option<&Subset>) -> Result<bool, NoMemory>
    ensures { IfOk result (λ second. second ≡ sending.starts_second (given_to (option_copied tables.entry) (map entry_of entries.now))) }
{
    match entries {
        [] => Ok(false),
        [first, ..] => is_second(first.entry(), tables),
    }
}

impl Kept {
    ghost use Rattle.server_memory.specs.Kept.{parts};

    /// The reply to a client that asks for the history from its cursor on, takes version 2 or not, and gets all entries
    /// or those of its tables.
    pub fn ask(
        &self,
        alloc: Global,
        ask: &Ask,
        second: bool,
        tables: Option<&Subset>,
    ) -> Result<Message, NoMemory>
        ensures { IfOk result (λ reply. message_seen reply ≡ (asked (parts self.now) ask.now.ident ask.now.cursor ask.now.settled (option_copied tables.entry) second).answer) }
    {
        let (ident, cursor) = (ask.ident(), ask.cursor());
        let (len, floor) = (self.history.len(), self.history.floor());
        if self.history.at(ident).is_none() {
            let given = self.history.given();
            return Ok(refuse(ident, 0, Refusal::NoSuchIdent { given }));
        }
        if len < cursor {
            return Ok(refuse(ident, 0, Refusal::AheadOfHistory { len }));
        }
        if cursor < floor {
            return Ok(refuse(ident, 0, Refusal::Trimmed { floor }));
        }
        self.send(alloc, ident, cursor, second, tables)
    }

    /// The entries from a cursor on.
    fn send(
        &self,
        alloc: Global,
        ident: Ident,
        cursor: u32,
        second: bool,
        tables: Option<&Subset>,
    ) -> Result<Message, NoMemory>
        requires named { 1 ≤ ident }
        requires kept { self.now.history.floor ≤ cursor }
        requires within { cursor ≤ len_of self.now.history }
        ensures { IfOk result (λ reply. message_seen reply ≡ (sending.downloads (option_copied tables.entry) second ident cursor (drop (cursor - self.now.history.floor) self.now.history.entries)).answer) }
    {
        let entries = self.history.from(cursor);
        if !second {
            match starts_second(entries, tables) {
                Ok(false) => {}
                Ok(true) => return Ok(refuse(ident, 0, Refusal::NeedsForm2 { cursor })),
                Err(NoMemory) => return Err(NoMemory),
            }
        }
        let sent = sent_entries(alloc, entries, second, tables)?;
        Ok(Message::Download(Download::new(ident, cursor, sent)))
    }

    /// Whether a question that gets this reply settles more than those before it of its ident.
    pub fn settles(&self, ask: &Ask, reply: &Message) -> bool
        ensures given { result ≡ true → (g : GivenParts Instr) × (at_ident ask.now.ident self.now.history.idents ≡ Some g) }
        ensures says { (tables : Option Tables) (second : Bool) → message_seen reply.now ≡ (asked (parts self.now) ask.now.ident ask.now.cursor ask.now.settled tables second).answer → Settles result (asked (parts self.now) ask.now.ident ask.now.cursor ask.now.settled tables second) (parts self.now) ask.now.ident ask.now.settled }
    {
        let (_cursor, settled) = (ask.cursor(), ask.settled());
        match reply {
            Message::Refused { .. } => false,
            _ => match self.history.at(ask.ident()) {
                Some(given) => given.mark() < settled,
                None => false,
            },
        }
    }
}
