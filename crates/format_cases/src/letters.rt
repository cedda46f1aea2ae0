//! Messages with lives: their bytes, and what they are.
use crate::bytes::{bytes_of, columns_of};
use crate::failure::Failure;
use crate::lives::{life_text, runs_text, saves_text};
use crate::messages;
use life_bytes::{
    Answered, Answers, GiveUp, GivenUp, Letter, Mark, Said, Says, letter_bytes, letter_of,
};
use std::alloc::Global;

/// The case of one line:
/// `is HEX FIELDS`: the bytes are that message, which has no other bytes, and no beginning of them is a message;
/// `read HEX WHY`: they are one;
/// `none HEX WHY`: they are no message.
pub fn holds(alloc: Global, word: &str, rest: &str) -> Result<bool, Failure> {
    let (hex, fields) = columns_of(rest)?;
    let bytes = bytes_of(alloc, hex)?;
    match word {
        "is" => is(alloc, &bytes, fields),
        "read" => Ok(letter_of(alloc, &bytes).is_ok()),
        "none" => Ok(letter_of(alloc, &bytes).is_err()),
        _ => Err(Failure::Line),
    }
}

fn is(alloc: Global, bytes: &[u8], fields: &str) -> Result<bool, Failure> {
    let Ok(letter) = letter_of(alloc, bytes) else {
        return Ok(false);
    };
    let Ok(again) = letter_bytes(alloc, &letter) else {
        return Err(Failure::Memory);
    };
    if again.as_slice() != bytes || any_beginning(alloc, bytes) {
        return Ok(false);
    }
    Ok(fields_of(alloc, &letter)?.as_str() == fields)
}

/// Whether a beginning of the bytes is a message.
fn any_beginning(alloc: Global, bytes: &[u8]) -> bool {
    for end in 0..bytes.len() {
        if letter_of(alloc, &bytes[..end]).is_ok() {
            return true;
        }
    }
    false
}

/// The message's word and its fields, in the order of docs/FORMATS.md, "Messages with lives"; the message within stands behind a bar.
fn fields_of(alloc: Global, letter: &Letter) -> Result<String, Failure> {
    match letter {
        Letter::Message(message) => messages::fields_of(alloc, message),
        Letter::Says(says) => says_text(alloc, says),
        Letter::Answers(answers) => answers_text(alloc, answers),
    }
}

fn mark_text(alloc: Global, mark: Mark) -> Result<String, Failure> {
    let life = life_text(alloc, mark.life)?;
    Ok(format!(in alloc; "{} {life}", mark.number)?)
}

fn says_text(alloc: Global, says: &Says) -> Result<String, Failure> {
    let uuid = hex::encode(alloc, says.uuid().as_slice())?;
    let cursor = mark_text(alloc, says.cursor())?;
    let mut text = runs_text(alloc, says.runs())?;
    for saving in says.saves() {
        let saves = saves_text(alloc, &saving.saves)?;
        write!(text, " {}={saves}", saving.number)?;
    }
    let inner = match says.inner() {
        Said::Message(message) => messages::fields_of(alloc, message)?,
        Said::GiveUp(given) => give_up_text(alloc, given)?,
    };
    Ok(format!(in alloc; "Says {uuid} {cursor}{text} | {inner}")?)
}

fn answers_text(alloc: Global, answers: &Answers) -> Result<String, Failure> {
    let uuid = hex::encode(alloc, answers.uuid().as_slice())?;
    let birth = life_text(alloc, answers.birth())?;
    let last = mark_text(alloc, answers.last())?;
    let runs = runs_text(alloc, answers.runs())?;
    let inner = match answers.inner() {
        Answered::Message(message) => messages::fields_of(alloc, message)?,
        Answered::GivenUp(given) => given_up_text(alloc, given)?,
    };
    Ok(format!(in alloc; "Answers {uuid} {birth} {last}{runs} | {inner}")?)
}

fn give_up_text(alloc: Global, given: &GiveUp) -> Result<String, Failure> {
    let mut text = format!(in alloc; "GiveUp {}", given.by())?;
    for uuid in given.uuids() {
        let uuid = hex::encode(alloc, uuid.as_slice())?;
        write!(text, " {uuid}")?;
    }
    for life in given.lives() {
        let life = life_text(alloc, *life)?;
        write!(text, " of {life}")?;
    }
    Ok(text)
}

fn given_up_text(alloc: Global, given: &GivenUp) -> Result<String, Failure> {
    let mut text = format!(in alloc; "GivenUp {}", given.by())?;
    for number in given.numbers() {
        write!(text, " {number}")?;
    }
    Ok(text)
}
