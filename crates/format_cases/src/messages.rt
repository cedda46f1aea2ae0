//! Messages: their bytes, and what they are.
use crate::bytes::{bytes_of, columns_of};
use crate::failure::Failure;
use crate::tables::tables_text;
use std::alloc::Global;
use sync_messages::{Change, Message, Sent, message_bytes, message_of};

/// The case of one line:
/// `is HEX FIELDS`: the bytes are that message, which has no other bytes, and no beginning of them is a message;
/// `read HEX`: they are a message;
/// `none HEX WHY`: they are no message.
pub fn holds(alloc: Global, word: &str, rest: &str) -> Result<bool, Failure> {
    match word {
        "is" => {
            let (hex, fields) = columns_of(rest)?;
            is(alloc, &bytes_of(alloc, hex)?, fields)
        }
        "read" => Ok(message_of(alloc, &bytes_of(alloc, rest)?).is_ok()),
        "none" => {
            let (hex, _why) = columns_of(rest)?;
            Ok(message_of(alloc, &bytes_of(alloc, hex)?).is_err())
        }
        _ => Err(Failure::Line),
    }
}

fn is(alloc: Global, bytes: &[u8], fields: &str) -> Result<bool, Failure> {
    let Ok(message) = message_of(alloc, bytes) else {
        return Ok(false);
    };
    let Ok(copy) = message.copy() else {
        return Err(Failure::Memory);
    };
    let Ok(again) = message_bytes(alloc, &copy) else {
        return Err(Failure::Memory);
    };
    if again.as_slice() != bytes || any_beginning(alloc, bytes) {
        return Ok(false);
    }
    Ok(fields_of(alloc, &message)?.as_str() == fields)
}

/// Whether a beginning of the bytes is a message.
fn any_beginning(alloc: Global, bytes: &[u8]) -> bool {
    for end in 0..bytes.len() {
        if message_of(alloc, &bytes[..end]).is_ok() {
            return true;
        }
    }
    false
}

/// The message's word and its fields, in the order of docs/FORMATS.md, "Messages"; a change or an entry stands in brackets.
pub fn fields_of(alloc: Global, message: &Message) -> Result<String, Failure> {
    let text = match message {
        Message::Bind { uuid } => format!(in alloc;
            "Bind {}",
            hex::encode(alloc, uuid.as_slice())?
        ),
        Message::Ident(given) => {
            let uuid = hex::encode(alloc, given.uuid().as_slice())?;
            format!(in alloc; "Ident {uuid} {}", given.ident())
        }
        Message::Upload(upload) => {
            let changes = changes_of(alloc, upload.changes())?;
            format!(in alloc; "Upload {}{changes}", upload.ident())
        }
        Message::Ask(ask) => format!(in alloc;
            "Ask {} {} {}",
            ask.ident(),
            ask.cursor(),
            ask.settled()
        ),
        Message::Download(download) => {
            let entries = entries_of(alloc, download.entries())?;
            format!(in alloc;
                "Download {} {}{entries}",
                download.ident(),
                download.from()
            )
        }
        Message::Refused {
            ident,
            number,
            code,
            place,
        } => format!(in alloc; "Refused {ident} {number} {code} {place}"),
        Message::Stored(stored) => format!(in alloc;
            "Stored {} {}",
            stored.ident(),
            stored.number()
        ),
        Message::Ask2(ask) => format!(in alloc;
            "Ask2 {} {} {}",
            ask.ident(),
            ask.cursor(),
            ask.settled()
        ),
        Message::Retire(retire) => format!(in alloc; "Retire {} {}", retire.ident(), retire.by()),
        Message::Retired(retired) => format!(in alloc;
            "Retired {} {} {}",
            retired.ident(),
            retired.by(),
            retired.number()
        ),
        Message::AskTables(asked) => {
            let ask = asked.ask();
            let tables = tables_text(alloc, asked.tables())?;
            format!(in alloc;
                "AskTables {} {} {} {}{tables}",
                ask.ident(),
                ask.cursor(),
                ask.settled(),
                asked.form()
            )
        }
    };
    Ok(text?)
}

fn changes_of(alloc: Global, changes: &[Change]) -> Result<String, Failure> {
    let mut text = String::new(alloc);
    for change in changes {
        let body = hex::encode(alloc, change.body())?;
        write!(
            text,
            " [{} {} {} {body}]",
            change.number(),
            change.base(),
            change.ms()
        )?;
    }
    Ok(text)
}

fn entries_of(alloc: Global, entries: &[Sent]) -> Result<String, Failure> {
    let mut text = String::new(alloc);
    for entry in entries {
        let body = hex::encode(alloc, entry.body())?;
        write!(
            text,
            " [{} {} {} {body}]",
            entry.origin(),
            entry.number(),
            entry.ms()
        )?;
    }
    Ok(text)
}
