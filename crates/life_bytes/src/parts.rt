ghost use Rattle.std.specs.Prelude.{◌≡◌, ◌≤◌, ◌<◌, ◌^◌, ◌++◌, length, IfOk, OnOk};
ghost use Rattle.sync_io.specs.Formats.{number_in, bytes_in, ended};
ghost use Rattle.sync_io.specs.Varints.{varint};
ghost use Rattle.sync_messages.specs.Reading.{Gives};
ghost use Rattle.life_bytes.specs.Runs.{IsLife, AreWholeLives};
ghost use Rattle.life_bytes.specs.Spelling.{run_spelling, lives_spelling, token_spelling, saves_spelling, saving_spelling, mark_spelling};
ghost use Rattle.life_bytes.specs.Reading.{run_in, lives_in, token_in, saves_in, saving_in, mark_in, ident_in};
ghost use Rattle.life_bytes.specs.Whole.{IsNumber, IsUuid, IsWholeRun, IsWholeToken, IsWholeSaves, IsWholeSaving, IsWholeMark};

use crate::field::{Field, listed_of, put_listed};
use crate::life::Life;
use crate::mark::Mark;
use crate::run::Run;
use crate::runs::{MOST_RUNS, Runs};
use crate::saves::{Saves, Saving};
use crate::token::Token;
use std::alloc::Global;
use sync_data::{Id, Ident};
use sync_io::{NoMemory, put_varint32, varint32_of};
use sync_messages::MessageRefusal;

/// The most tokens of a frontier.
const MOST_TOKENS: u32 = 4_096;

pub(crate) fn number_of(bytes: &[u8]) -> Result<(u32, &[u8]), MessageRefusal>
    ensures { Gives (λ x. (x.0, x.1.now)) result (number_in bytes.now) }
{
    match varint32_of(bytes) {
        Ok(found) => Ok(found),
        Err(_) => Err(MessageRefusal::BadMessage),
    }
}

/// An ident, which is at least 1.
#[tactic(auto, unfolding(crate::specs::Reading::ident_in))]
pub(crate) fn ident_of(bytes: &[u8]) -> Result<(Ident, &[u8]), MessageRefusal>
    ensures read { Gives (λ x. (x.0, x.1.now)) result (ident_in bytes.now) }
    ensures named { IfOk result (λ x. 1 ≤ x.0) }
{
    let (ident, rest) = number_of(bytes)?;
    if ident == 0 {
        return Err(MessageRefusal::BadMessage);
    }
    Ok((ident, rest))
}

pub(crate) fn id_of(bytes: &[u8]) -> Result<(Id, &[u8]), MessageRefusal>
    ensures { Gives (λ x. (x.0, x.1.now)) result (bytes_in 16 bytes.now) }
{
    match bytes.split_first_chunk::<16>() {
        Some((id, rest)) => Ok((*id, rest)),
        None => Err(MessageRefusal::BadMessage),
    }
}

pub(crate) fn put_id(out: &mut Vec<u8>, id: &Id) -> Result<(), NoMemory>
    ensures spelled { OnOk result (out.new.items ≡ out.old.items ++ id.now) }
    ensures is { OnOk result (IsUuid id.now) }
{
    out.extend_from_slice(id)?;
    Ok(())
}

pub(crate) fn life_of(bytes: &[u8]) -> Result<(Life, &[u8]), MessageRefusal>
    ensures { Gives (λ x. (x.0, x.1.now)) result (bytes_in 16 bytes.now) }
{
    let (bytes, rest) = id_of(bytes)?;
    Ok((Life::new(bytes), rest))
}

pub(crate) fn put_life(out: &mut Vec<u8>, life: Life) -> Result<(), NoMemory>
    ensures spelled { OnOk result (out.new.items ≡ out.old.items ++ life) }
    ensures is { OnOk result (IsLife life) }
{
    put_id(out, &life.bytes())
}

pub(crate) fn put_mark(out: &mut Vec<u8>, mark: Mark) -> Result<(), NoMemory>
    ensures spelled { OnOk result (out.new.items ≡ out.old.items ++ mark_spelling mark) }
    ensures is { OnOk result (IsWholeMark mark) }
{
    put_varint32(out, mark.number)?;
    put_life(out, mark.life)
}

#[tactic(auto, unfolding(crate::specs::Reading::token_in))]
pub(crate) fn token_of(bytes: &[u8]) -> Result<(Token, &[u8]), MessageRefusal>
    ensures { Gives (λ x. (x.0, x.1.now)) result (token_in bytes.now) }
{
    let (life, rest) = id_of(bytes)?;
    let (number, rest) = number_of(rest)?;
    if number == 0 {
        return Err(MessageRefusal::BadMessage);
    }
    Ok((Token::new(Life::new(life), number), rest))
}

pub(crate) fn put_token(out: &mut Vec<u8>, token: &Token) -> Result<(), NoMemory>
    ensures spelled { OnOk result (out.new.items ≡ out.old.items ++ token_spelling token.now) }
    ensures is { OnOk result (IsWholeToken token.now) }
{
    put_life(out, token.life())?;
    put_varint32(out, token.number())
}

#[tactic(auto, unfolding(crate::specs::Reading::saves_in))]
pub(crate) fn saves_of(alloc: Global, bytes: &[u8]) -> Result<(Saves, &[u8]), MessageRefusal>
    ensures { Gives (λ x. (x.0, x.1.now)) result (saves_in bytes.now) }
{
    match token_of(bytes) {
        Ok((token, rest)) => {
            let (frontier, rest) = listed_of(alloc, MOST_TOKENS, rest)?;
            Ok((Saves::new(token, frontier), rest))
        }
        Err(why) => Err(why),
    }
}

pub(crate) fn put_saves(out: &mut Vec<u8>, saves: &Saves) -> Result<(), NoMemory>
    ensures spelled { OnOk result (out.new.items ≡ out.old.items ++ saves_spelling saves.now) }
    ensures is { OnOk result (IsWholeSaves saves.now) }
{
    put_token(out, &saves.token())?;
    put_listed(out, saves.frontier())
}

#[tactic(auto, unfolding(crate::specs::Reading::lives_in))]
pub(crate) fn runs_of(alloc: Global, bytes: &[u8]) -> Result<(Runs, &[u8]), MessageRefusal>
    ensures { Gives (λ x. (x.0, x.1.now)) result (lives_in bytes.now) }
{
    let (runs, rest) = listed_of(alloc, MOST_RUNS, bytes)?;
    match Runs::of(runs) {
        Ok(runs) => Ok((runs, rest)),
        Err(_) => Err(MessageRefusal::BadMessage),
    }
}

pub(crate) fn put_runs(out: &mut Vec<u8>, runs: &Runs) -> Result<(), NoMemory>
    ensures spelled { OnOk result (out.new.items ≡ out.old.items ++ lives_spelling runs.now) }
    ensures are { OnOk result (AreWholeLives runs.now) }
{
    put_listed(out, runs.runs())
}

/// What was read, if nothing is left.
pub(crate) fn alone<T: Drop>(value: T, rest: &[u8]) -> Result<T, MessageRefusal>
    ensures { Gives (λ x. x) result (ended value rest.now) }
{
    if rest.is_empty() {
        Ok(value)
    } else {
        drop(value);
        Err(MessageRefusal::BadMessage)
    }
}

impl Field for Run {
    ghost spelling = { run_spelling };

    ghost field_in = { run_in };

    ghost IsWhole = { IsWholeRun };

    #[tactic(auto, unfolding(crate::specs::Reading::run_in))]
    fn field_of(_alloc: Global, bytes: &[u8]) -> Result<(Run, &[u8]), MessageRefusal> {
        let (count, rest) = number_of(bytes)?;
        let (life, rest) = id_of(rest)?;
        let life = Life::new(life);
        Ok((Run { count, life }, rest))
    }

    fn put(&self, out: &mut Vec<u8>) -> Result<(), NoMemory> {
        put_varint32(out, self.count)?;
        put_life(out, self.life)
    }
}

impl Field for Token {
    ghost spelling = { token_spelling };

    ghost field_in = { token_in };

    ghost IsWhole = { IsWholeToken };

    fn field_of(_alloc: Global, bytes: &[u8]) -> Result<(Token, &[u8]), MessageRefusal> {
        token_of(bytes)
    }

    fn put(&self, out: &mut Vec<u8>) -> Result<(), NoMemory> {
        put_token(out, self)
    }
}

impl Field for Saving {
    ghost spelling = { saving_spelling };

    ghost field_in = { saving_in };

    ghost IsWhole = { IsWholeSaving };

    #[tactic(auto, unfolding(crate::specs::Reading::saving_in))]
    fn field_of(alloc: Global, bytes: &[u8]) -> Result<(Saving, &[u8]), MessageRefusal> {
        let (number, rest) = number_of(bytes)?;
        let (saves, rest) = saves_of(alloc, rest)?;
        Ok((Saving { number, saves }, rest))
    }

    fn put(&self, out: &mut Vec<u8>) -> Result<(), NoMemory> {
        put_varint32(out, self.number)?;
        put_saves(out, &self.saves)
    }
}

impl Field for Id {
    ghost spelling = { λ uuid. uuid };

    ghost field_in = { bytes_in 16 };

    ghost IsWhole = { IsUuid };

    fn field_of(_alloc: Global, bytes: &[u8]) -> Result<(Id, &[u8]), MessageRefusal> {
        id_of(bytes)
    }

    fn put(&self, out: &mut Vec<u8>) -> Result<(), NoMemory> {
        put_id(out, self)
    }
}

impl Field for Life {
    ghost spelling = { λ life. life };

    ghost field_in = { bytes_in 16 };

    ghost IsWhole = { IsLife };

    fn field_of(_alloc: Global, bytes: &[u8]) -> Result<(Life, &[u8]), MessageRefusal> {
        life_of(bytes)
    }

    fn put(&self, out: &mut Vec<u8>) -> Result<(), NoMemory> {
        put_life(out, *self)
    }
}

impl Field for u32 {
    ghost spelling = { varint };

    ghost field_in = { number_in };

    ghost IsWhole = { IsNumber };

    fn field_of(_alloc: Global, bytes: &[u8]) -> Result<(u32, &[u8]), MessageRefusal> {
        number_of(bytes)
    }

    fn put(&self, out: &mut Vec<u8>) -> Result<(), NoMemory> {
        put_varint32(out, *self)
    }
}
