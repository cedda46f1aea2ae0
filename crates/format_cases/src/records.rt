//! Records of journals: their bytes, and what they are.
use crate::bytes::{bytes_of, columns_of};
use crate::failure::Failure;
use crate::tables::tables_text;
use std::alloc::Global;
use sync_records::{ClientRecord, ServerRecord};

/// The case of one line:
/// `client HEX FIELDS` and `server HEX FIELDS`: the bytes are that record of a client's or of a server's journal, which has
/// no other bytes;
/// `no client HEX WHY` and `no server HEX WHY`: they are none.
pub fn holds(alloc: Global, word: &str, rest: &str) -> Result<bool, Failure> {
    let (hex, fields) = columns_of(rest)?;
    let bytes = bytes_of(alloc, hex)?;
    match word {
        "client" => is_client(alloc, &bytes, fields),
        "server" => is_server(alloc, &bytes, fields),
        "no client" => Ok(ClientRecord::record_of(alloc, &bytes).is_err()),
        "no server" => Ok(ServerRecord::record_of(alloc, &bytes).is_err()),
        _ => Err(Failure::Line),
    }
}

fn is_client(alloc: Global, bytes: &[u8], fields: &str) -> Result<bool, Failure> {
    let Ok(record) = ClientRecord::record_of(alloc, bytes) else {
        return Ok(false);
    };
    let Ok(again) = record.record_bytes(alloc) else {
        return Err(Failure::Memory);
    };
    Ok(again.as_slice() == bytes && client_fields(alloc, &record)?.as_str() == fields)
}

fn is_server(alloc: Global, bytes: &[u8], fields: &str) -> Result<bool, Failure> {
    let Ok(record) = ServerRecord::record_of(alloc, bytes) else {
        return Ok(false);
    };
    let Ok(again) = record.record_bytes(alloc) else {
        return Err(Failure::Memory);
    };
    Ok(again.as_slice() == bytes && server_fields(alloc, &record)?.as_str() == fields)
}

/// The record's word and its fields, in the order of docs/FORMATS.md, "Records".
fn client_fields(alloc: Global, record: &ClientRecord) -> Result<String, Failure> {
    let text = match record {
        ClientRecord::Born { id } => format!(in alloc;
            "Born {}",
            hex::encode(alloc, id.as_slice())?
        ),
        ClientRecord::Named(named) => format!(in alloc; "Named {}", named.ident()),
        ClientRecord::Made { number, ms, body } => {
            let body = hex::encode(alloc, body.bytes())?;
            format!(in alloc; "Made {number} {ms} {body}")
        }
        ClientRecord::Took {
            origin,
            number,
            ms,
            body,
        } => {
            let body = hex::encode(alloc, body.bytes())?;
            format!(in alloc; "Took {origin} {number} {ms} {body}")
        }
        ClientRecord::Form => format!(in alloc; "Form 2"),
        ClientRecord::Subset { tables } => format!(in alloc;
            "Subset{}",
            tables_text(alloc, tables)?
        ),
        ClientRecord::Part { body } => format!(in alloc;
            "Part {}",
            hex::encode(alloc, body.bytes())?
        ),
        ClientRecord::Floor { version } => format!(in alloc; "Floor {version}"),
        ClientRecord::Resumed { number, waiting } => {
            format!(in alloc; "Resumed {number} {waiting}")
        }
        ClientRecord::Waits {
            number,
            base,
            ms,
            body,
            current,
        } => {
            let body = hex::encode(alloc, body.bytes())?;
            let current = hex::encode(alloc, current.bytes())?;
            format!(in alloc; "Waits {number} {base} {ms} {body} {current}")
        }
    };
    Ok(text?)
}

/// The same of a record of a server.
fn server_fields(alloc: Global, record: &ServerRecord) -> Result<String, Failure> {
    let text = match record {
        ServerRecord::Client { id } => format!(in alloc;
            "Client {}",
            hex::encode(alloc, id.as_slice())?
        ),
        ServerRecord::Entry {
            origin,
            number,
            base,
            ms,
            body,
        } => {
            let body = hex::encode(alloc, body.bytes())?;
            format!(in alloc; "Entry {origin} {number} {base} {ms} {body}")
        }
        ServerRecord::Form => format!(in alloc; "Form 2"),
        ServerRecord::Retired { ident, by } => format!(in alloc; "Retired {ident} {by}"),
        ServerRecord::Settled { ident, settled } => format!(in alloc; "Settled {ident} {settled}"),
        _ => return front_fields(alloc, record),
    };
    Ok(text?)
}

/// The same of the records with which a trimmed file begins.
fn front_fields(alloc: Global, record: &ServerRecord) -> Result<String, Failure> {
    let text = match record {
        ServerRecord::Part { body } => format!(in alloc;
            "Part {}",
            hex::encode(alloc, body.bytes())?
        ),
        ServerRecord::Floor { version } => format!(in alloc; "Floor {version}"),
        ServerRecord::Count {
            ident,
            number,
            base,
            settled,
        } => format!(in alloc; "Count {ident} {number} {base} {settled}"),
        ServerRecord::Carried {
            origin,
            number,
            base,
            ms,
            body,
        } => {
            let body = hex::encode(alloc, body.bytes())?;
            format!(in alloc; "Carried {origin} {number} {base} {ms} {body}")
        }
        ServerRecord::Past {
            ident,
            version,
            ms,
            body,
        } => {
            let body = hex::encode(alloc, body.bytes())?;
            format!(in alloc; "Past {ident} {version} {ms} {body}")
        }
        _ => return Err(Failure::Line),
    };
    Ok(text?)
}
