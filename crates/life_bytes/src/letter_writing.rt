ghost use Rattle.std.specs.Prelude.{◌≡◌, ◌++◌, IfOk, OnOk};
ghost use Rattle.sync_messages.specs.Spelling.{message_spelling};
ghost use Rattle.sync_messages.specs.Whole.{IsMessage};
ghost use Rattle.life_bytes.specs.Spelling.{give_up_spelling, given_up_spelling, said_spelling, answered_spelling, says_spelling, answers_spelling, letter_spelling};
ghost use Rattle.life_bytes.specs.Whole.{IsWholeGiveUp, IsWholeGivenUp, IsWholeSaid, IsWholeAnswered, IsWholeSays, IsWholeAnswers, IsLetter};

use crate::answered::Answered;
use crate::answers::Answers;
use crate::field::put_listed;
use crate::give_up::GiveUp;
use crate::given_up::GivenUp;
use crate::letter::Letter;
use crate::parts::{put_id, put_life, put_mark, put_runs};
use crate::said::Said;
use crate::says::Says;
use std::alloc::Global;
use sync_data::NoMemory;
use sync_io::put_varint32;
use sync_messages::{Message, message_bytes};

/// Writes a message at the end.
fn put_message(out: &mut Vec<u8>, alloc: Global, message: &Message) -> Result<(), sync_io::NoMemory>
    ensures spelled { OnOk result (out.new.items ≡ out.old.items ++ message_spelling message.now) }
    ensures is { OnOk result (IsMessage message.now) }
{
    match message_bytes(alloc, message) {
        Ok(bytes) => {
            out.extend_from_slice(bytes.as_slice())?;
            Ok(())
        }
        Err(_) => Err(sync_io::NoMemory),
    }
}

fn put_give_up(out: &mut Vec<u8>, given: &GiveUp) -> Result<(), sync_io::NoMemory>
    ensures spelled { OnOk result (out.new.items ≡ out.old.items ++ give_up_spelling given.now) }
    ensures is { OnOk result (IsWholeGiveUp given.now) }
{
    put_varint32(out, given.by())?;
    put_listed(out, given.uuids())?;
    put_listed(out, given.lives())
}

fn put_given_up(out: &mut Vec<u8>, given: &GivenUp) -> Result<(), sync_io::NoMemory>
    ensures spelled { OnOk result (out.new.items ≡ out.old.items ++ given_up_spelling given.now) }
    ensures is { OnOk result (IsWholeGivenUp given.now) }
{
    put_varint32(out, given.by())?;
    put_listed(out, given.numbers())
}

fn put_said(out: &mut Vec<u8>, alloc: Global, said: &Said) -> Result<(), sync_io::NoMemory>
    ensures spelled { OnOk result (out.new.items ≡ out.old.items ++ said_spelling said.now) }
    ensures is { OnOk result (IsWholeSaid said.now) }
{
    match said {
        Said::Message(message) => put_message(out, alloc, message),
        Said::GiveUp(given) => {
            out.push(14)?;
            put_give_up(out, given)
        }
    }
}

fn put_answered(
    out: &mut Vec<u8>,
    alloc: Global,
    answered: &Answered,
) -> Result<(), sync_io::NoMemory>
    ensures spelled { OnOk result (out.new.items ≡ out.old.items ++ answered_spelling answered.now) }
    ensures is { OnOk result (IsWholeAnswered answered.now) }
{
    match answered {
        Answered::Message(message) => put_message(out, alloc, message),
        Answered::GivenUp(given) => {
            out.push(15)?;
            put_given_up(out, given)
        }
    }
}

fn put_says(out: &mut Vec<u8>, alloc: Global, says: &Says) -> Result<(), sync_io::NoMemory>
    ensures spelled { OnOk result (out.new.items ≡ out.old.items ++ says_spelling says.now) }
    ensures is { OnOk result (IsWholeSays says.now) }
{
    put_id(out, &says.uuid())?;
    put_mark(out, says.cursor())?;
    put_runs(out, says.runs())?;
    put_listed(out, says.saves())?;
    put_said(out, alloc, says.inner())
}

fn put_answers(out: &mut Vec<u8>, alloc: Global, answers: &Answers) -> Result<(), sync_io::NoMemory>
    ensures spelled { OnOk result (out.new.items ≡ out.old.items ++ answers_spelling answers.now) }
    ensures is { OnOk result (IsWholeAnswers answers.now) }
{
    put_id(out, &answers.uuid())?;
    put_life(out, answers.birth())?;
    put_mark(out, answers.last())?;
    put_runs(out, answers.runs())?;
    put_answered(out, alloc, answers.inner())
}

fn put_letter(out: &mut Vec<u8>, alloc: Global, letter: &Letter) -> Result<(), sync_io::NoMemory>
    ensures spelled { OnOk result (out.new.items ≡ out.old.items ++ letter_spelling letter.now) }
    ensures is { OnOk result (IsLetter letter.now) }
{
    match letter {
        Letter::Message(message) => put_message(out, alloc, message),
        Letter::Says(says) => {
            out.push(12)?;
            put_says(out, alloc, says)
        }
        Letter::Answers(answers) => {
            out.push(13)?;
            put_answers(out, alloc, answers)
        }
    }
}

/// The one spelling of the message (docs/FORMATS.md, "Messages" and "Messages with lives").
pub fn letter_bytes(alloc: Global, letter: &Letter) -> Result<Vec<u8>, NoMemory>
    ensures spelled { IfOk result (λ bytes. bytes.items ≡ letter_spelling letter.now) }
    // So they are read as the message again.
    ensures is { OnOk result (IsLetter letter.now) }
{
    let mut out = Vec::new(alloc);
    match put_letter(&mut out, alloc, letter) {
        Ok(()) => Ok(out),
        Err(_) => Err(NoMemory),
    }
}
