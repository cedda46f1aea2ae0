ghost use Rattle.std.specs.Prelude.{◌≡◌, IfOk, Some};
ghost use Rattle.sync_io.specs.Formats.{bytes_in, all_in};
ghost use Rattle.sync_messages.specs.Reading.{Gives};
ghost use Rattle.sync_records.specs.Reading.{fields_in, record_in};
ghost use Rattle.life_bytes.specs.Reading.{GivesNote, lives_in, token_in, saves_in, ident_in, numbers_in, note_forms, note_in};
ghost use Rattle.life_bytes.specs.Spelling.{note_spelling, is_note};
ghost use Rattle.life_bytes.specs.Whole.{IsNote};
ghost use Rattle.life_bytes.specs.declared.note.Note.{Note};

use crate::life::Life;
use crate::note::Note;
use crate::numbers::Numbers;
use crate::parts::{alone, id_of, ident_of, runs_of, saves_of, token_of};
use crate::refusal::NoteRefusal;
use crate::runs::Runs;
use crate::saves::Saves;
use crate::token::Token;
use std::alloc::Global;
use sync_messages::MessageRefusal;
use sync_records::Named;

fn one_life(bytes: &[u8]) -> Result<Life, MessageRefusal>
    ensures { Gives (λ x. x) result (all_in (bytes_in 16) bytes.now) }
{
    let (life, rest) = id_of(bytes)?;
    alone(Life::new(life), rest)
}

fn one_saves(alloc: Global, bytes: &[u8]) -> Result<Saves, MessageRefusal>
    ensures { Gives (λ x. x) result (all_in saves_in bytes.now) }
{
    let (saves, rest) = saves_of(alloc, bytes)?;
    alone(saves, rest)
}

fn one_ident(bytes: &[u8]) -> Result<Named, MessageRefusal>
    ensures { Gives (λ x. x) result (all_in ident_in bytes.now) }
{
    let (ident, rest) = ident_of(bytes)?;
    alone(Named::new(ident), rest)
}

#[tactic(auto, unfolding(crate::specs::Reading::numbers_in))]
fn one_numbers(bytes: &[u8]) -> Result<Numbers, MessageRefusal>
    ensures { Gives (λ x. x) result (all_in numbers_in bytes.now) }
{
    let (ident, rest) = ident_of(bytes)?;
    let (life, rest) = id_of(rest)?;
    alone(Numbers::new(ident, Life::new(life)), rest)
}

fn one_token(bytes: &[u8]) -> Result<Token, MessageRefusal>
    ensures { Gives (λ x. x) result (all_in token_in bytes.now) }
{
    match token_of(bytes) {
        Ok((token, rest)) => alone(token, rest),
        Err(why) => Err(why),
    }
}

fn all_runs(alloc: Global, bytes: &[u8]) -> Result<Runs, MessageRefusal>
    ensures { Gives (λ x. x) result (all_in lives_in bytes.now) }
{
    let (runs, rest) = runs_of(alloc, bytes)?;
    alone(runs, rest)
}

/// The fields behind that tag.
fn fields_of(alloc: Global, tag: u8, bytes: &[u8]) -> Result<Note, MessageRefusal>
    ensures { Gives (λ x. x) result (fields_in note_forms tag bytes.now) }
{
    match tag {
        18 => Ok(Note::Life(one_life(bytes)?)),
        19 => Ok(Note::Birth(one_life(bytes)?)),
        20 => Ok(Note::Of(one_life(bytes)?)),
        21 => Ok(Note::Saves(one_saves(alloc, bytes)?)),
        22 => Ok(Note::Member(one_ident(bytes)?)),
        23 => Ok(Note::Numbers(one_numbers(bytes)?)),
        24 => Ok(Note::Saved(one_token(bytes)?)),
        25 => Ok(Note::Reached(one_token(bytes)?)),
        26 => Ok(Note::Lives(all_runs(alloc, bytes)?)),
        _ => Err(MessageRefusal::BadMessage),
    }
}

fn all_of(alloc: Global, bytes: &[u8]) -> Result<Note, MessageRefusal>
    ensures { Gives (λ x. x) result (note_in bytes.now) }
{
    match bytes {
        [] => Err(MessageRefusal::BadMessage),
        [tag, fields @ ..] => fields_of(alloc, *tag, fields),
    }
}

/// The same, with a refusal of its own.
fn any_of(alloc: Global, bytes: &[u8]) -> Result<Note, NoteRefusal>
    ensures { GivesNote result (note_in bytes.now) }
{
    match all_of(alloc, bytes) {
        Ok(note) => Ok(note),
        Err(MessageRefusal::BadMessage) => Err(NoteRefusal::BadNote),
        Err(MessageRefusal::NoMemory) => Err(NoteRefusal::NoMemory),
    }
}

/// The note that all of the bytes spell.
pub fn note_of(alloc: Global, bytes: &[u8]) -> Result<Note, NoteRefusal>
    // What is read is spelled so.
    ensures found { IfOk result (λ note. bytes.now ≡ note_spelling note) }
    // What is spelled so is read, unless memory runs out.
    ensures only { (note : Note) → IsNote note → bytes.now ≡ note_spelling note → GivesNote result (Some note) }
    // What is read, unless memory runs out.
    ensures exact { GivesNote result (note_in bytes.now) }
    // What is read keeps the limits of notes.
    ensures is { IfOk result IsNote }
{
    any_of(alloc, bytes)
}

/// Whether a record of a journal is a note, of this program or a later one: its first byte is 18 to 31.
pub fn is_note(bytes: &[u8]) -> bool
    ensures { result ≡ is_note bytes.now }
{
    match bytes {
        [] => false,
        [tag, ..] => 18 <= *tag && *tag <= 31,
    }
}
