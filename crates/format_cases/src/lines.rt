//! Event lines and lines of one node.
use crate::bytes::{bytes_of, columns_of};
use crate::failure::Failure;
use crate::tables::tables_text;
use std::alloc::Global;
use sync_codec::encode;
use sync_data::{Changeset, Instr, Listed};
use sync_edits::{Event, LineRefusal, NodeLine, event_of, node_line_of};

/// The case of one line:
/// `event FIELDS LINE` and `node FIELDS LINE`: the line is that event, or that line of a node;
/// `edit HEX EDIT`: the one edit of an event line is the instruction whose changeset has these bytes;
/// `event in hex FIELDS HEX`: the same of an event line that has bytes which a file of text can't;
/// `no event LINE`, `no event in hex HEX`, `no edit EDIT` and `no node LINE`: it is none.
pub fn holds(alloc: Global, word: &str, rest: &str) -> Result<bool, Failure> {
    match word {
        "no event" => Ok(is_none(alloc, rest.as_bytes())),
        "no event in hex" => Ok(is_none(alloc, &bytes_of(alloc, rest)?)),
        "no edit" => Ok(is_none(alloc, edit_line(alloc, rest)?.as_str().as_bytes())),
        "no node" => Ok(node_line_of(alloc, rest.as_bytes()).err() == Some(LineRefusal::BadLine)),
        _ => {
            let (fields, line) = columns_of(rest)?;
            is(alloc, word, fields, line)
        }
    }
}

fn is(alloc: Global, word: &str, fields: &str, line: &str) -> Result<bool, Failure> {
    match word {
        "event" => is_event(alloc, fields, line.as_bytes()),
        "event in hex" => is_event(alloc, fields, &bytes_of(alloc, line)?),
        "edit" => {
            let fields = format!(in alloc; "Edit A 5 {fields}")?;
            is_event(
                alloc,
                fields.as_str(),
                edit_line(alloc, line)?.as_str().as_bytes(),
            )
        }
        "node" => match node_line_of(alloc, line.as_bytes()) {
            Ok(found) => Ok(node_fields(alloc, found)?.as_str() == fields),
            Err(_) => Ok(false),
        },
        _ => Err(Failure::Line),
    }
}

fn is_none(alloc: Global, line: &[u8]) -> bool {
    event_of(alloc, line).err() == Some(LineRefusal::BadLine)
}

fn is_event(alloc: Global, fields: &str, line: &[u8]) -> Result<bool, Failure> {
    match event_of(alloc, line) {
        Ok(event) => Ok(event_fields(alloc, event)?.as_str() == fields),
        Err(_) => Ok(false),
    }
}

/// The edit event of client A at 5 milliseconds with that one edit.
fn edit_line(alloc: Global, edit: &str) -> Result<String, Failure> {
    let mut line = String::from_str(
        alloc,
        "{\"event\":\"edit\",\"client\":\"A\",\"ms\":5,\"edits\":[",
    )?;
    line.push_str(edit)?;
    line.push_str("]}")?;
    Ok(line)
}

/// The bytes of the changeset of those edits.
fn edits_hex(alloc: Global, edits: Listed<Instr>) -> Result<String, Failure> {
    let Ok(changes) = Changeset::checked(0, edits.into_vec()) else {
        return Err(Failure::Line);
    };
    let Ok(bytes) = encode(alloc, &changes) else {
        return Err(Failure::Memory);
    };
    Ok(hex::encode(alloc, &bytes)?)
}

/// The event's word and its fields.
fn event_fields(alloc: Global, event: Event) -> Result<String, Failure> {
    let text = match event {
        Event::Client { name, id } => {
            let id = hex::encode(alloc, id.as_slice())?;
            format!(in alloc; "Client {} {id}", name.text())
        }
        Event::Edit { client, ms, edits } => {
            let edits = edits_hex(alloc, edits)?;
            format!(in alloc; "Edit {} {ms} {edits}", client.text())
        }
        Event::Bind { client } => format!(in alloc; "Bind {}", client.text()),
        Event::Upload { client } => format!(in alloc; "Upload {}", client.text()),
        Event::Ask { client } => format!(in alloc; "Ask {}", client.text()),
        Event::Deliver { message, to } => format!(in alloc; "Deliver {message} {}", to.text()),
        Event::Restart { node } => format!(in alloc; "Restart {}", node.text()),
        Event::Stop { node, at, leaves } => format!(in alloc;
            "Stop {} {at} {leaves:?}",
            node.text()
        ),
        Event::Inject { message } => {
            let message = hex::encode(alloc, message.bytes())?;
            format!(in alloc; "Inject {message}")
        }
        Event::Upgrade { client } => format!(in alloc; "Upgrade {}", client.text()),
        Event::Subscribe { client, tables } => {
            let tables = tables_text(alloc, &tables)?;
            format!(in alloc; "Subscribe {}{tables}", client.text())
        }
    };
    Ok(text?)
}

/// The node line's word and its fields.
fn node_fields(alloc: Global, line: NodeLine) -> Result<String, Failure> {
    let text = match line {
        NodeLine::Born { id } => format!(in alloc; "Born {}", hex::encode(alloc, id.as_slice())?),
        NodeLine::Commit { ms, edits } => {
            let edits = edits_hex(alloc, edits)?;
            format!(in alloc; "Commit {ms} {edits}")
        }
        NodeLine::Upgrade => format!(in alloc; "Upgrade"),
        NodeLine::Subscribe { tables } => format!(in alloc;
            "Subscribe{}",
            tables_text(alloc, &tables)?
        ),
    };
    Ok(text?)
}
