ghost use Rattle.std.specs.Prelude.{◌≡◌};
ghost use Rattle.life_marks.specs.Reading.{GivesPiece, is_later, server_piece_in, client_piece_in};

use life_bytes::{Note, NoteRefusal, is_note, note_of};
use std::alloc::Global;
use sync_records::{ClientRecord, RecordRefusal, ServerRecord};

/// A record of a server's file, a note, or a note that only a later program knows.
#[derive(Drop)]
pub enum ServerPiece {
    Record(ServerRecord),
    Note(Note),
    Later,
}

/// The same of a client's file.
#[derive(Drop)]
pub enum ClientPiece {
    Record(ClientRecord),
    Note(Note),
    Later,
}

/// Why bytes aren't read as one of these.
#[derive(Clone, Copy)]
pub(crate) enum PieceRefusal {
    /// They spell neither a record nor a note.
    BadPiece,
    /// Memory ran out.
    NoMemory,
}

fn is_later(bytes: &[u8]) -> bool
    ensures { result ≡ is_later bytes.now }
{
    match bytes {
        [] => false,
        [tag, ..] => 27 <= *tag && *tag <= 31,
    }
}

/// What the bytes of a server's file spell.
pub(crate) fn server_piece(alloc: Global, bytes: &[u8]) -> Result<ServerPiece, PieceRefusal>
    ensures { GivesPiece result (server_piece_in bytes.now) }
{
    if is_later(bytes) {
        return Ok(ServerPiece::Later);
    }
    if is_note(bytes) {
        return match note_of(alloc, bytes) {
            Ok(note) => Ok(ServerPiece::Note(note)),
            Err(NoteRefusal::BadNote) => Err(PieceRefusal::BadPiece),
            Err(NoteRefusal::NoMemory) => Err(PieceRefusal::NoMemory),
        };
    }
    match ServerRecord::record_of(alloc, bytes) {
        Ok(found) => Ok(ServerPiece::Record(found)),
        Err(RecordRefusal::BadRecord) => Err(PieceRefusal::BadPiece),
        Err(RecordRefusal::NoMemory) => Err(PieceRefusal::NoMemory),
    }
}

/// What the bytes of a client's file spell.
pub(crate) fn client_piece(alloc: Global, bytes: &[u8]) -> Result<ClientPiece, PieceRefusal>
    ensures { GivesPiece result (client_piece_in bytes.now) }
{
    if is_later(bytes) {
        return Ok(ClientPiece::Later);
    }
    if is_note(bytes) {
        return match note_of(alloc, bytes) {
            Ok(note) => Ok(ClientPiece::Note(note)),
            Err(NoteRefusal::BadNote) => Err(PieceRefusal::BadPiece),
            Err(NoteRefusal::NoMemory) => Err(PieceRefusal::NoMemory),
        };
    }
    match ClientRecord::record_of(alloc, bytes) {
        Ok(found) => Ok(ClientPiece::Record(found)),
        Err(RecordRefusal::BadRecord) => Err(PieceRefusal::BadPiece),
        Err(RecordRefusal::NoMemory) => Err(PieceRefusal::NoMemory),
    }
}
