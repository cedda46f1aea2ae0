ghost use Rattle.std.specs.Prelude.{◌≡◌, ◌↔◌, true, Some, IsErrOf, IfErr, IfOk, OnOk};
ghost use Rattle.std.specs.List.{list_any};
ghost use Rattle.life_marks.specs.Reading.{TellsUnread, begins, is_used, server_marks_in, server_piece_in, client_marks_in, client_piece_in};

use crate::client_marks::ClientMarks;
use crate::pieces::{ClientPiece, PieceRefusal, ServerPiece, client_piece, server_piece};
use crate::server_marks::{NO_LIFE, ServerMarks};
use byte_lists::ByteLists;
use life_bytes::Life;
use std::alloc::Global;
use sync_data::NoMemory;

/// Why marks aren't read.
#[derive(Clone, Copy, Debug, PartialEq, Eq)]
pub enum MarksRefusal {
    /// The life stands in the file already, or it is 16 zero bytes. A host draws a life anew for each opening.
    LifeUsed,
    /// The bytes at this place among the records and notes, counted from 0, spell neither.
    BadPiece { place: usize },
    /// Memory ran out.
    NoMemory,
}

impl ServerMarks {
    ghost use Rattle.life_marks.specs.ServerMarks.{seen, no_marks, after_piece};

    /// What the records and notes of a file say of lives, which is to be opened in that life, if in any.
    pub fn of(
        alloc: Global,
        pieces: &ByteLists,
        life: Option<Life>,
    ) -> Result<ServerMarks, MarksRefusal>
        ensures read { IfOk result (λ marks. server_marks_in no_marks pieces.now ≡ Some (seen marks)) }
        ensures used { IsErrOf result MarksRefusal.LifeUsed ↔ (is_used life pieces.now ≡ true) }
        ensures bad { IfErr result (TellsUnread server_piece_in pieces.now) }
    {
        if is_used(life, pieces) {
            return Err(MarksRefusal::LifeUsed);
        }
        let mut marks = ServerMarks::new(alloc);
        for place in 0..pieces.len() {
            match server_piece(alloc, pieces.at(place)) {
                Ok(piece) => match marks.take_piece(&piece) {
                    Ok(()) => {}
                    Err(NoMemory) => return Err(MarksRefusal::NoMemory),
                },
                Err(PieceRefusal::BadPiece) => return Err(MarksRefusal::BadPiece { place }),
                Err(PieceRefusal::NoMemory) => return Err(MarksRefusal::NoMemory),
            }
        }
        Ok(marks)
    }

    fn take_piece(&mut self, piece: &ServerPiece) -> Result<(), NoMemory>
        ensures { OnOk result (seen self.new ≡ after_piece (seen self.old) piece.now) }
    {
        match piece {
            ServerPiece::Record(added) => self.take_record(added),
            ServerPiece::Note(note) => self.take_note(note),
            ServerPiece::Later => Ok(()),
        }
    }
}

impl ClientMarks {
    ghost use Rattle.life_marks.specs.ClientMarks.{seen, no_marks, after_piece};

    /// What the records and notes of a file say of lives, which is to be opened in that life, if in any.
    pub fn of(
        alloc: Global,
        pieces: &ByteLists,
        life: Option<Life>,
    ) -> Result<ClientMarks, MarksRefusal>
        ensures read { IfOk result (λ marks. client_marks_in no_marks pieces.now ≡ Some (seen marks)) }
        ensures used { IsErrOf result MarksRefusal.LifeUsed ↔ (is_used life pieces.now ≡ true) }
        ensures bad { IfErr result (TellsUnread client_piece_in pieces.now) }
    {
        if is_used(life, pieces) {
            return Err(MarksRefusal::LifeUsed);
        }
        let mut marks = ClientMarks::new(alloc);
        for place in 0..pieces.len() {
            match client_piece(alloc, pieces.at(place)) {
                Ok(piece) => match marks.take_piece(piece) {
                    Ok(()) => {}
                    Err(NoMemory) => return Err(MarksRefusal::NoMemory),
                },
                Err(PieceRefusal::BadPiece) => return Err(MarksRefusal::BadPiece { place }),
                Err(PieceRefusal::NoMemory) => return Err(MarksRefusal::NoMemory),
            }
        }
        Ok(marks)
    }

    fn take_piece(&mut self, piece: ClientPiece) -> Result<(), NoMemory>
        ensures { OnOk result (seen self.new ≡ after_piece (seen self.old) piece) }
    {
        match piece {
            ClientPiece::Record(added) => self.take_record(&added),
            ClientPiece::Note(note) => {
                self.take_note(note);
                Ok(())
            }
            ClientPiece::Later => Ok(()),
        }
    }
}

/// Whether no opening may have this life.
fn is_used(life: Option<Life>, pieces: &ByteLists) -> bool
    ensures { result ≡ is_used life pieces.now }
{
    match life {
        None => false,
        Some(life) => life == Life::new(NO_LIFE) || stands_in(life, pieces),
    }
}

/// Whether the life begins in the file.
fn stands_in(life: Life, pieces: &ByteLists) -> bool
    ensures { result ≡ list_any (begins life) pieces.now }
{
    for place in 0..pieces.len() {
        if begins(life, pieces.at(place)) {
            return true;
        }
    }
    false
}

fn begins(life: Life, bytes: &[u8]) -> bool
    ensures { result ≡ begins life bytes.now }
{
    match bytes {
        [] => false,
        [tag, rest @ ..] => *tag == 18 && rest == life.bytes().as_slice(),
    }
}
