ghost use Rattle.std.specs.Prelude.{◌≡◌, ◌≤◌, ◌+◌, List, length, IfOk, Some};
ghost use Rattle.sync_io.specs.Formats.{number_in, wide_in, bytes_in, body_in, many_in, seen_in};
ghost use Rattle.sync_messages.specs.Parts.{most_listed, bytes_of_changes, bytes_of_entries};
ghost use Rattle.sync_messages.specs.Reading.{Gives, given_in, change_in, upload_in, ask_in, entry_in, download_in, refused_of as read_refused, refused_in, stored_in, retire_in, retired_in, ask_tables_in, fields_in, message_in};
ghost use Rattle.subset_bytes.specs.Reading.{tables_in};
ghost use Rattle.sync_messages.specs.Spelling.{message_spelling};
ghost use Rattle.sync_messages.specs.Whole.{IsMessage};
ghost use Rattle.sync_messages.specs.declared.message.Message.{Message};

use crate::ask::Ask;
use crate::ask_tables::AskTables;
use crate::change::Change;
use crate::download::Download;
use crate::given::Given;
use crate::message::Message;
use crate::refusal::MessageRefusal;
use crate::retire::Retire;
use crate::retired::Retired;
use crate::sent::Sent;
use crate::stored::Stored;
use crate::upload::Upload;
use std::alloc::Global;
use subset_bytes::{TablesRefusal, tables_of};
use sync_data::{Blob, Id};
use sync_io::{varint32_of, varint64_of};
use sync_subset::Subset;

/// The most changes or entries of a message.
const MOST_LISTED: u32 = 4_096;

/// The most bytes that the bodies of a message have together.
const MOST_BYTES: u64 = 16_777_216;

fn number_of(bytes: &[u8]) -> Result<(u32, &[u8]), MessageRefusal>
    ensures { Gives (λ x. (x.0, x.1.now)) result (number_in bytes.now) }
{
    match varint32_of(bytes) {
        Ok(found) => Ok(found),
        Err(_) => Err(MessageRefusal::BadMessage),
    }
}

fn wide_of(bytes: &[u8]) -> Result<(u64, &[u8]), MessageRefusal>
    ensures { Gives (λ x. (x.0, x.1.now)) result (wide_in bytes.now) }
{
    match varint64_of(bytes) {
        Ok(found) => Ok(found),
        Err(_) => Err(MessageRefusal::BadMessage),
    }
}

fn id_of(bytes: &[u8]) -> Result<(Id, &[u8]), MessageRefusal>
    ensures { Gives (λ x. (x.0, x.1.now)) result (bytes_in 16 bytes.now) }
{
    match bytes.split_first_chunk::<16>() {
        Some((id, rest)) => Ok((*id, rest)),
        None => Err(MessageRefusal::BadMessage),
    }
}

fn body_of(alloc: Global, bytes: &[u8]) -> Result<(Blob, &[u8]), MessageRefusal>
    ensures { Gives (λ x. (x.0, x.1.now)) result (body_in bytes.now) }
{
    let (count, rest) = number_of(bytes)?;
    let count = count as usize;
    if rest.len() < count {
        return Err(MessageRefusal::BadMessage);
    }
    let (body, rest) = rest.split_at(count);
    match Blob::new(alloc, body) {
        Ok(body) => Ok((body, rest)),
        Err(_) => Err(MessageRefusal::NoMemory),
    }
}

#[tactic(auto, unfolding(crate::specs::Reading::given_in))]
fn given_of(bytes: &[u8]) -> Result<(Given, &[u8]), MessageRefusal>
    ensures { Gives (λ x. (x.0, x.1.now)) result (given_in bytes.now) }
{
    let (uuid, rest) = id_of(bytes)?;
    let (ident, rest) = number_of(rest)?;
    if ident == 0 {
        return Err(MessageRefusal::BadMessage);
    }
    Ok((Given::new(uuid, ident), rest))
}

#[tactic(auto, unfolding(crate::specs::Reading::change_in))]
fn change_of(alloc: Global, bytes: &[u8]) -> Result<(Change, &[u8]), MessageRefusal>
    ensures { Gives (λ x. (x.0, x.1.now)) result (change_in bytes.now) }
{
    let (number, rest) = number_of(bytes)?;
    let (base, rest) = number_of(rest)?;
    let (ms, rest) = wide_of(rest)?;
    let (body, rest) = body_of(alloc, rest)?;
    if number == 0 || body.bytes().len() as u64 > MOST_BYTES {
        return Err(MessageRefusal::BadMessage);
    }
    Ok((Change::new(number, base, ms, body), rest))
}

fn changes_of(
    alloc: Global,
    count: u32,
    bytes: &[u8],
) -> Result<(Vec<Change>, &[u8]), MessageRefusal>
    ensures read { Gives (λ x. (x.0.items, x.1.now)) result (many_in change_in count bytes.now) }
    ensures count { IfOk result (λ x. length x.0.items ≡ count) }
{
    let mut changes = Vec::new(alloc);
    let mut rest = bytes;
    for _ in 0..count {
        let (change, after) = change_of(alloc, rest)?;
        changes.push(change)?;
        rest = after;
    }
    Ok((changes, rest))
}

fn size_of_changes(changes: &[Change]) -> u64
    requires { length changes.now ≤ most_listed }
    ensures { result ≡ bytes_of_changes changes.now }
{
    let mut size = 0;
    for change in changes {
        size += change.body().len() as u64;
    }
    size
}

#[tactic(auto, unfolding(crate::specs::Reading::upload_in))]
fn upload_of(alloc: Global, bytes: &[u8]) -> Result<(Upload, &[u8]), MessageRefusal>
    ensures { Gives (λ x. (x.0, x.1.now)) result (upload_in bytes.now) }
{
    let (ident, rest) = number_of(bytes)?;
    let (count, rest) = number_of(rest)?;
    if count > MOST_LISTED {
        return Err(MessageRefusal::BadMessage);
    }
    let (changes, rest) = changes_of(alloc, count, rest)?;
    if ident == 0 || size_of_changes(&changes) > MOST_BYTES {
        return Err(MessageRefusal::BadMessage);
    }
    Ok((Upload::new(ident, changes), rest))
}

#[tactic(auto, unfolding(crate::specs::Reading::ask_in))]
fn ask_of(bytes: &[u8]) -> Result<(Ask, &[u8]), MessageRefusal>
    ensures { Gives (λ x. (x.0, x.1.now)) result (ask_in bytes.now) }
{
    let (ident, rest) = number_of(bytes)?;
    let (cursor, rest) = number_of(rest)?;
    let (settled, rest) = number_of(rest)?;
    if ident == 0 || settled > cursor {
        return Err(MessageRefusal::BadMessage);
    }
    Ok((Ask::new(ident, cursor, settled), rest))
}

#[tactic(auto, unfolding(crate::specs::Reading::entry_in))]
fn entry_of(alloc: Global, bytes: &[u8]) -> Result<(Sent, &[u8]), MessageRefusal>
    ensures { Gives (λ x. (x.0, x.1.now)) result (entry_in bytes.now) }
{
    let (origin, rest) = number_of(bytes)?;
    let (number, rest) = number_of(rest)?;
    let (ms, rest) = wide_of(rest)?;
    let (body, rest) = body_of(alloc, rest)?;
    if origin == 0 || number == 0 || body.bytes().len() as u64 > MOST_BYTES {
        return Err(MessageRefusal::BadMessage);
    }
    Ok((Sent::new(origin, number, ms, body), rest))
}

fn entries_of(alloc: Global, count: u32, bytes: &[u8]) -> Result<(Vec<Sent>, &[u8]), MessageRefusal>
    ensures read { Gives (λ x. (x.0.items, x.1.now)) result (many_in entry_in count bytes.now) }
    ensures count { IfOk result (λ x. length x.0.items ≡ count) }
{
    let mut entries = Vec::new(alloc);
    let mut rest = bytes;
    for _ in 0..count {
        let (entry, after) = entry_of(alloc, rest)?;
        entries.push(entry)?;
        rest = after;
    }
    Ok((entries, rest))
}

fn size_of_entries(entries: &[Sent]) -> u64
    requires { length entries.now ≤ most_listed }
    ensures { result ≡ bytes_of_entries entries.now }
{
    let mut size = 0;
    for entry in entries {
        size += entry.body().len() as u64;
    }
    size
}

#[tactic(auto, unfolding(crate::specs::Reading::download_in))]
fn download_of(alloc: Global, bytes: &[u8]) -> Result<(Download, &[u8]), MessageRefusal>
    ensures { Gives (λ x. (x.0, x.1.now)) result (download_in bytes.now) }
{
    let (ident, rest) = number_of(bytes)?;
    let (from, rest) = number_of(rest)?;
    let (count, rest) = number_of(rest)?;
    if count > MOST_LISTED {
        return Err(MessageRefusal::BadMessage);
    }
    let (entries, rest) = entries_of(alloc, count, rest)?;
    if ident == 0 || from > u32::MAX - count || size_of_entries(&entries) > MOST_BYTES {
        return Err(MessageRefusal::BadMessage);
    }
    Ok((Download::new(ident, from, entries), rest))
}

#[tactic(auto, unfolding(crate::specs::Reading::refused_in))]
fn refused_of(bytes: &[u8]) -> Result<(Message, &[u8]), MessageRefusal>
    ensures { Gives (λ x. (x.0, x.1.now)) result (seen_in read_refused refused_in bytes.now) }
{
    let (ident, rest) = number_of(bytes)?;
    let (number, rest) = number_of(rest)?;
    let (code, rest) = number_of(rest)?;
    let (place, rest) = number_of(rest)?;
    let refused = Message::Refused {
        ident,
        number,
        code,
        place,
    };
    Ok((refused, rest))
}

#[tactic(auto, unfolding(crate::specs::Reading::stored_in))]
fn stored_of(bytes: &[u8]) -> Result<(Stored, &[u8]), MessageRefusal>
    ensures { Gives (λ x. (x.0, x.1.now)) result (stored_in bytes.now) }
{
    let (ident, rest) = number_of(bytes)?;
    let (number, rest) = number_of(rest)?;
    if ident == 0 {
        return Err(MessageRefusal::BadMessage);
    }
    Ok((Stored::new(ident, number), rest))
}

#[tactic(auto, unfolding(crate::specs::Reading::retire_in))]
fn retire_of(bytes: &[u8]) -> Result<(Retire, &[u8]), MessageRefusal>
    ensures { Gives (λ x. (x.0, x.1.now)) result (retire_in bytes.now) }
{
    let (ident, rest) = number_of(bytes)?;
    let (by, rest) = number_of(rest)?;
    if ident == 0 || by == 0 {
        return Err(MessageRefusal::BadMessage);
    }
    Ok((Retire::new(ident, by), rest))
}

#[tactic(auto, unfolding(crate::specs::Reading::retired_in))]
fn retired_of(bytes: &[u8]) -> Result<(Retired, &[u8]), MessageRefusal>
    ensures { Gives (λ x. (x.0, x.1.now)) result (retired_in bytes.now) }
{
    let (ident, rest) = number_of(bytes)?;
    let (by, rest) = number_of(rest)?;
    let (number, rest) = number_of(rest)?;
    if ident == 0 || by == 0 {
        return Err(MessageRefusal::BadMessage);
    }
    Ok((Retired::new(ident, by, number), rest))
}

fn subset_of(alloc: Global, bytes: &[u8]) -> Result<(Subset, &[u8]), MessageRefusal>
    ensures { Gives (λ x. (x.0, x.1.now)) result (tables_in bytes.now) }
{
    match tables_of(alloc, bytes) {
        Ok(found) => Ok(found),
        Err(TablesRefusal::BadTables) => Err(MessageRefusal::BadMessage),
        Err(TablesRefusal::NoMemory) => Err(MessageRefusal::NoMemory),
    }
}

#[tactic(auto, unfolding(crate::specs::Reading::ask_tables_in))]
fn ask_tables_of(alloc: Global, bytes: &[u8]) -> Result<(AskTables, &[u8]), MessageRefusal>
    ensures { Gives (λ x. (x.0, x.1.now)) result (ask_tables_in bytes.now) }
{
    let (ask, rest) = ask_of(bytes)?;
    let (form, rest) = number_of(rest)?;
    let (tables, rest) = subset_of(alloc, rest)?;
    if form == 0 || form > 2 {
        return Err(MessageRefusal::BadMessage);
    }
    Ok((AskTables::new(ask, form, tables), rest))
}

/// The fields of the message with that tag.
#[tactic(auto, unfolding(crate::specs::Reading::fields_in))]
fn fields_of(alloc: Global, tag: u8, bytes: &[u8]) -> Result<(Message, &[u8]), MessageRefusal>
    ensures { Gives (λ x. (x.0, x.1.now)) result (fields_in tag bytes.now) }
{
    match tag {
        1 => {
            let (uuid, rest) = id_of(bytes)?;
            Ok((Message::Bind { uuid }, rest))
        }
        2 => {
            let (given, rest) = given_of(bytes)?;
            Ok((Message::Ident(given), rest))
        }
        3 => {
            let (upload, rest) = upload_of(alloc, bytes)?;
            Ok((Message::Upload(upload), rest))
        }
        4 => {
            let (ask, rest) = ask_of(bytes)?;
            Ok((Message::Ask(ask), rest))
        }
        5 => {
            let (download, rest) = download_of(alloc, bytes)?;
            Ok((Message::Download(download), rest))
        }
        6 => refused_of(bytes),
        7 => {
            let (stored, rest) = stored_of(bytes)?;
            Ok((Message::Stored(stored), rest))
        }
        8 => {
            let (ask, rest) = ask_of(bytes)?;
            Ok((Message::Ask2(ask), rest))
        }
        9 => {
            let (retire, rest) = retire_of(bytes)?;
            Ok((Message::Retire(retire), rest))
        }
        10 => {
            let (retired, rest) = retired_of(bytes)?;
            Ok((Message::Retired(retired), rest))
        }
        11 => {
            let (asked, rest) = ask_tables_of(alloc, bytes)?;
            Ok((Message::AskTables(asked), rest))
        }
        _ => Err(MessageRefusal::BadMessage),
    }
}

fn all_of(alloc: Global, bytes: &[u8]) -> Result<Message, MessageRefusal>
    ensures { Gives (λ x. x) result (message_in bytes.now) }
{
    match bytes {
        [] => Err(MessageRefusal::BadMessage),
        [tag, fields @ ..] => {
            let (message, rest) = fields_of(alloc, *tag, fields)?;
            if rest.is_empty() {
                Ok(message)
            } else {
                Err(MessageRefusal::BadMessage)
            }
        }
    }
}

/// The message that all of the bytes spell.
pub fn message_of(alloc: Global, bytes: &[u8]) -> Result<Message, MessageRefusal>
    // What is read is spelled so.
    ensures found { IfOk result (λ message. bytes.now ≡ message_spelling message) }
    // What is spelled so is read, unless memory runs out.
    ensures only { (message : Message) → IsMessage message → bytes.now ≡ message_spelling message → Gives (λ m. m) result (Some message) }
    // What is read, unless memory runs out.
    ensures exact { Gives (λ m. m) result (message_in bytes.now) }
    // What is read keeps the limits of messages.
    ensures is { IfOk result IsMessage }
{
    all_of(alloc, bytes)
}
