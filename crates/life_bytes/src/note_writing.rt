ghost use Rattle.std.specs.Prelude.{◌≡◌, ◌++◌, true, IfOk, OnOk};
ghost use Rattle.life_bytes.specs.Spelling.{numbers_spelling, note_spelling, note_tag, note_fields, is_note};
ghost use Rattle.life_bytes.specs.Whole.{IsNote, IsWholeNumbers};

use crate::note::Note;
use crate::numbers::Numbers;
use crate::parts::{put_life, put_runs, put_saves, put_token};
use std::alloc::Global;
use sync_data::NoMemory;
use sync_io::put_varint32;

fn put_numbers(out: &mut Vec<u8>, numbers: &Numbers) -> Result<(), sync_io::NoMemory>
    ensures spelled { OnOk result (out.new.items ≡ out.old.items ++ numbers_spelling numbers.now) }
    ensures is { OnOk result (IsWholeNumbers numbers.now) }
{
    put_varint32(out, numbers.ident())?;
    put_life(out, numbers.life())
}

/// The first byte of a note.
fn tag_of(note: &Note) -> u8
    ensures { result ≡ note_tag note.now }
{
    match note {
        Note::Life(_) => 18,
        Note::Birth(_) => 19,
        Note::Of(_) => 20,
        Note::Saves(_) => 21,
        Note::Member(_) => 22,
        Note::Numbers(_) => 23,
        Note::Saved(_) => 24,
        Note::Reached(_) => 25,
        Note::Lives(_) => 26,
    }
}

/// Writes what follows that byte.
fn put_fields(out: &mut Vec<u8>, note: &Note) -> Result<(), sync_io::NoMemory>
    ensures spelled { OnOk result (out.new.items ≡ out.old.items ++ note_fields note.now) }
    ensures is { OnOk result (IsNote note.now) }
{
    match note {
        Note::Life(life) => put_life(out, *life),
        Note::Birth(life) => put_life(out, *life),
        Note::Of(life) => put_life(out, *life),
        Note::Saves(saves) => put_saves(out, saves),
        Note::Member(named) => put_varint32(out, named.ident()),
        Note::Numbers(numbers) => put_numbers(out, numbers),
        Note::Saved(token) => put_token(out, token),
        Note::Reached(token) => put_token(out, token),
        Note::Lives(runs) => put_runs(out, runs),
    }
}

#[tactic(auto, using(crate::proofs::Tagged::note_tagged))]
fn put_note(out: &mut Vec<u8>, note: &Note) -> Result<(), sync_io::NoMemory>
    ensures spelled { OnOk result (out.new.items ≡ out.old.items ++ note_spelling note.now) }
    ensures is { OnOk result (IsNote note.now) }
{
    out.push(tag_of(note))?;
    put_fields(out, note)
}

/// The one spelling of the note (docs/FORMATS.md, "Notes").
pub fn note_bytes(alloc: Global, note: &Note) -> Result<Vec<u8>, NoMemory>
    ensures spelled { IfOk result (λ bytes. bytes.items ≡ note_spelling note.now) }
    // So they are read as the note again.
    ensures is { OnOk result (IsNote note.now) }
    // They are told from today's records by their first byte.
    ensures passed { IfOk result (λ bytes. is_note bytes.items ≡ true) }
{
    let mut out = Vec::new(alloc);
    match put_note(&mut out, note) {
        Ok(()) => Ok(out),
        Err(_) => Err(NoMemory),
    }
}
