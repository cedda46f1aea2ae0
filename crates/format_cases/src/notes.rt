//! Notes in journals: their bytes, and what they are.
use crate::bytes::{bytes_of, columns_of};
use crate::failure::Failure;
use crate::lives::{life_text, runs_text, saves_text, token_text};
use life_bytes::{Note, is_note, note_bytes, note_of};
use std::alloc::Global;

/// The case of one line:
/// `is HEX FIELDS`: the bytes are that note, which has no other bytes;
/// `read HEX WHY`: they are one;
/// `later HEX WHY`: they are none, but may be one of a later program;
/// `none HEX WHY`: they are neither.
pub fn holds(alloc: Global, word: &str, rest: &str) -> Result<bool, Failure> {
    let (hex, fields) = columns_of(rest)?;
    let bytes = bytes_of(alloc, hex)?;
    match word {
        "is" => is(alloc, &bytes, fields),
        "read" => Ok(note_of(alloc, &bytes).is_ok()),
        "later" => Ok(note_of(alloc, &bytes).is_err() && is_note(&bytes)),
        "none" => Ok(note_of(alloc, &bytes).is_err() && !is_note(&bytes)),
        _ => Err(Failure::Line),
    }
}

fn is(alloc: Global, bytes: &[u8], fields: &str) -> Result<bool, Failure> {
    let Ok(note) = note_of(alloc, bytes) else {
        return Ok(false);
    };
    let Ok(again) = note_bytes(alloc, &note) else {
        return Err(Failure::Memory);
    };
    if again.as_slice() != bytes || !is_note(bytes) {
        return Ok(false);
    }
    Ok(fields_of(alloc, &note)?.as_str() == fields)
}

/// The note's word and its fields, in the order of docs/FORMATS.md, "Notes".
fn fields_of(alloc: Global, note: &Note) -> Result<String, Failure> {
    let text = match note {
        Note::Life(life) => format!(in alloc; "Life {}", life_text(alloc, *life)?),
        Note::Birth(life) => format!(in alloc; "Birth {}", life_text(alloc, *life)?),
        Note::Of(life) => format!(in alloc; "Of {}", life_text(alloc, *life)?),
        Note::Saves(saves) => format!(in alloc; "Saves {}", saves_text(alloc, saves)?),
        Note::Member(named) => format!(in alloc; "Member {}", named.ident()),
        Note::Numbers(numbers) => {
            let life = life_text(alloc, numbers.life())?;
            format!(in alloc; "Numbers {} {life}", numbers.ident())
        }
        Note::Saved(token) => format!(in alloc; "Saved {}", token_text(alloc, *token)?),
        Note::Reached(token) => format!(in alloc; "Reached {}", token_text(alloc, *token)?),
        Note::Lives(runs) => format!(in alloc; "Lives{}", runs_text(alloc, runs)?),
    };
    Ok(text?)
}
