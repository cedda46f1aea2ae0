ghost use Rattle.std.specs.Prelude.{◌≡◌, ◌≤◌, ◌++◌, length, All, OnOk, IfOk};
ghost use Rattle.std.specs.List.{flat_map};
ghost use Rattle.sync_io.specs.Formats.{body, listed};
ghost use Rattle.sync_io.specs.Varints.{varint};
ghost use Rattle.sync_messages.specs.Parts.{most_listed, most_bytes};
ghost use Rattle.sync_messages.specs.Whole.{IsWholeGiven, IsWholeChange, IsWholeUpload, IsWholeAsk, IsWholeEntry, IsWholeDownload, IsWholeStored, IsWholeRetire, IsWholeRetired, IsWholeAskTables, IsMessage};
ghost use Rattle.sync_messages.specs.Spelling.{given_spelling, change_spelling, upload_spelling, ask_spelling, entry_spelling, download_spelling, stored_spelling, retire_spelling, retired_spelling, ask_tables_spelling, fields_spelling, message_spelling, message_tag};

use crate::ask::Ask;
use crate::ask_tables::AskTables;
use crate::change::Change;
use crate::download::Download;
use crate::given::Given;
use crate::message::Message;
use crate::retire::Retire;
use crate::retired::Retired;
use crate::sent::Sent;
use crate::stored::Stored;
use crate::upload::Upload;
use std::alloc::Global;
use subset_bytes::put_tables;
use sync_data::{Id, NoMemory};
use sync_io::{put_varint32, put_varint64};

fn put_given(out: &mut Vec<u8>, given: &Given) -> Result<(), sync_io::NoMemory>
    ensures spelled { OnOk result (out.new.items ≡ out.old.items ++ given_spelling given.now) }
    ensures is { OnOk result (IsWholeGiven given.now) }
{
    out.extend_from_slice(&given.uuid())?;
    put_varint32(out, given.ident())
}

fn put_body(out: &mut Vec<u8>, bytes: &[u8]) -> Result<(), sync_io::NoMemory>
    requires { length bytes.now ≤ most_bytes }
    ensures { OnOk result (out.new.items ≡ out.old.items ++ body bytes.now) }
{
    put_varint32(out, bytes.len() as u32)?;
    out.extend_from_slice(bytes)?;
    Ok(())
}

fn put_change(out: &mut Vec<u8>, change: &Change) -> Result<(), sync_io::NoMemory>
    ensures spelled { OnOk result (out.new.items ≡ out.old.items ++ change_spelling change.now) }
    ensures is { OnOk result (IsWholeChange change.now) }
{
    put_varint32(out, change.number())?;
    put_varint32(out, change.base())?;
    put_varint64(out, change.ms())?;
    put_body(out, change.body())
}

fn put_changes(out: &mut Vec<u8>, changes: &[Change]) -> Result<(), sync_io::NoMemory>
    requires { length changes.now ≤ most_listed }
    ensures spelled { OnOk result (out.new.items ≡ out.old.items ++ listed change_spelling changes.now) }
    ensures are { OnOk result (All IsWholeChange changes.now) }
{
    put_varint32(out, changes.len() as u32)?;
    for change in changes {
        put_change(out, change)?;
    }
    Ok(())
}

fn put_upload(out: &mut Vec<u8>, upload: &Upload) -> Result<(), sync_io::NoMemory>
    ensures spelled { OnOk result (out.new.items ≡ out.old.items ++ upload_spelling upload.now) }
    ensures is { OnOk result (IsWholeUpload upload.now) }
{
    put_varint32(out, upload.ident())?;
    put_changes(out, upload.changes())
}

fn put_ask(out: &mut Vec<u8>, ask: &Ask) -> Result<(), sync_io::NoMemory>
    ensures spelled { OnOk result (out.new.items ≡ out.old.items ++ ask_spelling ask.now) }
    ensures is { OnOk result (IsWholeAsk ask.now) }
{
    put_varint32(out, ask.ident())?;
    put_varint32(out, ask.cursor())?;
    put_varint32(out, ask.settled())
}

fn put_entry(out: &mut Vec<u8>, entry: &Sent) -> Result<(), sync_io::NoMemory>
    ensures spelled { OnOk result (out.new.items ≡ out.old.items ++ entry_spelling entry.now) }
    ensures is { OnOk result (IsWholeEntry entry.now) }
{
    put_varint32(out, entry.origin())?;
    put_varint32(out, entry.number())?;
    put_varint64(out, entry.ms())?;
    put_body(out, entry.body())
}

fn put_entries(out: &mut Vec<u8>, entries: &[Sent]) -> Result<(), sync_io::NoMemory>
    requires { length entries.now ≤ most_listed }
    ensures spelled { OnOk result (out.new.items ≡ out.old.items ++ listed entry_spelling entries.now) }
    ensures are { OnOk result (All IsWholeEntry entries.now) }
{
    put_varint32(out, entries.len() as u32)?;
    for entry in entries {
        put_entry(out, entry)?;
    }
    Ok(())
}

fn put_download(out: &mut Vec<u8>, download: &Download) -> Result<(), sync_io::NoMemory>
    ensures spelled { OnOk result (out.new.items ≡ out.old.items ++ download_spelling download.now) }
    ensures is { OnOk result (IsWholeDownload download.now) }
{
    put_varint32(out, download.ident())?;
    put_varint32(out, download.from())?;
    put_entries(out, download.entries())
}

fn put_refused(
    out: &mut Vec<u8>,
    ident: u32,
    number: u32,
    code: u32,
    place: u32,
) -> Result<(), sync_io::NoMemory>
    ensures { OnOk result (out.new.items ≡ out.old.items ++ (varint ident ++ varint number ++ varint code ++ varint place)) }
{
    put_varint32(out, ident)?;
    put_varint32(out, number)?;
    put_varint32(out, code)?;
    put_varint32(out, place)
}

fn put_stored(out: &mut Vec<u8>, stored: &Stored) -> Result<(), sync_io::NoMemory>
    ensures spelled { OnOk result (out.new.items ≡ out.old.items ++ stored_spelling stored.now) }
    ensures is { OnOk result (IsWholeStored stored.now) }
{
    put_varint32(out, stored.ident())?;
    put_varint32(out, stored.number())
}

fn put_retire(out: &mut Vec<u8>, retire: &Retire) -> Result<(), sync_io::NoMemory>
    ensures spelled { OnOk result (out.new.items ≡ out.old.items ++ retire_spelling retire.now) }
    ensures is { OnOk result (IsWholeRetire retire.now) }
{
    put_varint32(out, retire.ident())?;
    put_varint32(out, retire.by())
}

fn put_retired(out: &mut Vec<u8>, retired: &Retired) -> Result<(), sync_io::NoMemory>
    ensures spelled { OnOk result (out.new.items ≡ out.old.items ++ retired_spelling retired.now) }
    ensures is { OnOk result (IsWholeRetired retired.now) }
{
    put_varint32(out, retired.ident())?;
    put_varint32(out, retired.by())?;
    put_varint32(out, retired.number())
}

fn put_ask_tables(out: &mut Vec<u8>, asked: &AskTables) -> Result<(), sync_io::NoMemory>
    ensures spelled { OnOk result (out.new.items ≡ out.old.items ++ ask_tables_spelling asked.now) }
    ensures is { OnOk result (IsWholeAskTables asked.now) }
{
    put_ask(out, asked.ask())?;
    put_varint32(out, asked.form())?;
    put_tables(out, asked.tables())
}

#[tactic(auto, using(crate::proofs::Tagged::tagged))]
fn put_message(out: &mut Vec<u8>, message: &Message) -> Result<(), sync_io::NoMemory>
    ensures spelled { OnOk result (out.new.items ≡ out.old.items ++ message_spelling message.now) }
    ensures is { OnOk result (IsMessage message.now) }
{
    out.push(tag_of(message))?;
    put_fields(out, message)
}

/// The first byte of a message.
fn tag_of(message: &Message) -> u8
    ensures { result ≡ message_tag message.now }
{
    match message {
        Message::Bind { uuid: _ } => 1,
        Message::Ident(_) => 2,
        Message::Upload(_) => 3,
        Message::Ask(_) => 4,
        Message::Download(_) => 5,
        Message::Refused {
            ident: _,
            number: _,
            code: _,
            place: _,
        } => 6,
        Message::Stored(_) => 7,
        Message::Ask2(_) => 8,
        Message::Retire(_) => 9,
        Message::Retired(_) => 10,
        Message::AskTables(_) => 11,
    }
}

/// Writes what follows that byte.
fn put_fields(out: &mut Vec<u8>, message: &Message) -> Result<(), sync_io::NoMemory>
    ensures spelled { OnOk result (out.new.items ≡ out.old.items ++ fields_spelling message.now) }
    ensures is { OnOk result (IsMessage message.now) }
{
    match message {
        Message::Bind { uuid } => put_uuid(out, uuid),
        Message::Ident(given) => put_given(out, given),
        Message::Upload(upload) => put_upload(out, upload),
        Message::Ask(ask) => put_ask(out, ask),
        Message::Download(download) => put_download(out, download),
        Message::Refused {
            ident,
            number,
            code,
            place,
        } => put_refused(out, *ident, *number, *code, *place),
        Message::Stored(stored) => put_stored(out, stored),
        Message::Ask2(ask) => put_ask(out, ask),
        Message::Retire(retire) => put_retire(out, retire),
        Message::Retired(retired) => put_retired(out, retired),
        Message::AskTables(asked) => put_ask_tables(out, asked),
    }
}

fn put_uuid(out: &mut Vec<u8>, uuid: &Id) -> Result<(), sync_io::NoMemory>
    ensures spelled { OnOk result (out.new.items ≡ out.old.items ++ uuid.now) }
    ensures is { OnOk result (length uuid.now ≡ 16) }
{
    out.extend_from_slice(uuid)?;
    Ok(())
}

/// The one spelling of the message (docs/FORMATS.md, "Messages").
pub fn message_bytes(alloc: Global, message: &Message) -> Result<Vec<u8>, NoMemory>
    ensures spelled { IfOk result (λ bytes. bytes.items ≡ message_spelling message.now) }
    // So they are read as the message again.
    ensures is { OnOk result (IsMessage message.now) }
{
    let mut out = Vec::new(alloc);
    match put_message(&mut out, message) {
        Ok(()) => Ok(out),
        Err(_) => Err(NoMemory),
    }
}
