ghost use Rattle.std.specs.Prelude.{◌≡◌, IfOk, Some};
ghost use Rattle.sync_io.specs.Formats.{number_in, bytes_in, both_in, all_in};
ghost use Rattle.sync_messages.specs.Reading.{Gives};
ghost use Rattle.life_bytes.specs.Reading.{mark_in, give_up_in, given_up_in, said_in, answered_in, says_in, answers_in, letter_in};
ghost use Rattle.life_bytes.specs.Spelling.{letter_spelling};
ghost use Rattle.life_bytes.specs.Whole.{IsLetter};
ghost use Rattle.life_bytes.specs.declared.letter.Letter.{Letter};

use crate::answered::Answered;
use crate::answers::Answers;
use crate::field::listed_of;
use crate::give_up::GiveUp;
use crate::given_up::GivenUp;
use crate::letter::Letter;
use crate::life::Life;
use crate::mark::Mark;
use crate::parts::{alone, id_of, ident_of, number_of, runs_of};
use crate::said::Said;
use crate::says::Says;
use std::alloc::Global;
use sync_messages::{MessageRefusal, message_of};

/// The most uuids of a GiveUp.
const MOST_UUIDS: u32 = 4_096;

/// The most lives of a GiveUp, and numbers of a GivenUp.
const MOST_LIVES: u32 = 65_536;

/// The most saves of a Says.
const MOST_SAVES: u32 = 4_096;

#[tactic(auto, unfolding(crate::specs::Reading::give_up_in))]
fn give_up_of(alloc: Global, bytes: &[u8]) -> Result<GiveUp, MessageRefusal>
    ensures { Gives (λ x. x) result (all_in give_up_in bytes.now) }
{
    let (by, rest) = ident_of(bytes)?;
    let (uuids, rest) = listed_of(alloc, MOST_UUIDS, rest)?;
    let (lives, rest) = listed_of(alloc, MOST_LIVES, rest)?;
    alone(GiveUp::new(by, uuids, lives), rest)
}

#[tactic(auto, unfolding(crate::specs::Reading::given_up_in))]
fn given_up_of(alloc: Global, bytes: &[u8]) -> Result<GivenUp, MessageRefusal>
    ensures { Gives (λ x. x) result (all_in given_up_in bytes.now) }
{
    let (by, rest) = ident_of(bytes)?;
    let (numbers, rest) = listed_of(alloc, MOST_LIVES, rest)?;
    alone(GivenUp::new(by, numbers), rest)
}

/// What stands in a Says.
fn said_of(alloc: Global, bytes: &[u8]) -> Result<Said, MessageRefusal>
    ensures { Gives (λ x. x) result (said_in bytes.now) }
{
    match bytes {
        [14, fields @ ..] => Ok(Said::GiveUp(give_up_of(alloc, fields)?)),
        _ => Ok(Said::Message(message_of(alloc, bytes)?)),
    }
}

/// What stands in an Answers.
fn answered_of(alloc: Global, bytes: &[u8]) -> Result<Answered, MessageRefusal>
    ensures { Gives (λ x. x) result (answered_in bytes.now) }
{
    match bytes {
        [15, fields @ ..] => Ok(Answered::GivenUp(given_up_of(alloc, fields)?)),
        _ => Ok(Answered::Message(message_of(alloc, bytes)?)),
    }
}

#[tactic(auto, unfolding(crate::specs::Reading::says_in, crate::specs::Reading::mark_in))]
fn says_of(alloc: Global, bytes: &[u8]) -> Result<Says, MessageRefusal>
    ensures { Gives (λ x. x) result (says_in bytes.now) }
{
    let (uuid, rest) = id_of(bytes)?;
    let (number, rest) = number_of(rest)?;
    let (life, rest) = id_of(rest)?;
    let (runs, rest) = runs_of(alloc, rest)?;
    let (saves, rest) = listed_of(alloc, MOST_SAVES, rest)?;
    let inner = said_of(alloc, rest)?;
    let cursor = Mark {
        number,
        life: Life::new(life),
    };
    match Says::new(uuid, cursor, runs, saves, inner) {
        Ok(says) => Ok(says),
        Err(_) => Err(MessageRefusal::BadMessage),
    }
}

#[tactic(auto, unfolding(crate::specs::Reading::answers_in, crate::specs::Reading::mark_in))]
fn answers_of(alloc: Global, bytes: &[u8]) -> Result<Answers, MessageRefusal>
    ensures { Gives (λ x. x) result (answers_in bytes.now) }
{
    let (uuid, rest) = id_of(bytes)?;
    let (birth, rest) = id_of(rest)?;
    let (number, rest) = number_of(rest)?;
    let (life, rest) = id_of(rest)?;
    let (runs, rest) = runs_of(alloc, rest)?;
    let inner = answered_of(alloc, rest)?;
    let last = Mark {
        number,
        life: Life::new(life),
    };
    match Answers::new(uuid, Life::new(birth), last, runs, inner) {
        Ok(answers) => Ok(answers),
        Err(_) => Err(MessageRefusal::BadMessage),
    }
}

fn all_of(alloc: Global, bytes: &[u8]) -> Result<Letter, MessageRefusal>
    ensures { Gives (λ x. x) result (letter_in bytes.now) }
{
    match bytes {
        [12, fields @ ..] => Ok(Letter::Says(says_of(alloc, fields)?)),
        [13, fields @ ..] => Ok(Letter::Answers(answers_of(alloc, fields)?)),
        _ => Ok(Letter::Message(message_of(alloc, bytes)?)),
    }
}

/// The message that all of the bytes spell, with lives or without.
pub fn letter_of(alloc: Global, bytes: &[u8]) -> Result<Letter, MessageRefusal>
    // What is read is spelled so.
    ensures found { IfOk result (λ letter. bytes.now ≡ letter_spelling letter) }
    // What is spelled so is read, unless memory runs out.
    ensures only { (letter : Letter) → IsLetter letter → bytes.now ≡ letter_spelling letter → Gives (λ x. x) result (Some letter) }
    // What is read, unless memory runs out.
    ensures exact { Gives (λ x. x) result (letter_in bytes.now) }
    // What is read keeps the limits of messages.
    ensures is { IfOk result IsLetter }
{
    all_of(alloc, bytes)
}
