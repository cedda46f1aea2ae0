// A change of an old client, which its heir takes.
ghost use Rattle.std.specs.Prelude.{◌≡◌, ◌∷◌, ◌++◌, [], List, map, flat_map, Some, IfOk, OnOk};
ghost use Rattle.std.specs.Option.{option_map};
ghost use Rattle.sync_model.specs.Clients as model;
ghost use Rattle.sync_heir.specs.Heirs.{heir_seen, heir_step, reset_seen};
ghost use Rattle.sync_messages.specs.Reading.{Gives};
ghost use Rattle.sync_host.specs.Heirs.{Resets, change_in, drop_bytes, heir_answer, heir_bytes, heir_said, inherited_in, retired_in, wide_in, word_in};
ghost use Rattle.sync_host.specs.Replies.{reply_bytes};
ghost use Rattle.sync_host.specs.Steps.{Answers, ClientStands, IfTold, Lasts, start_of};

use crate::answers::decline;
use crate::head::put_word;
use crate::refusals::{of, plain};
use crate::reply::Reply;
use std::alloc::{AllocError, Global};
use sync_client::Client;
use sync_data::Blob;
use sync_disk::Disk;
use sync_heir::{Heir, ResetRefusal, heir};
use sync_messages::{Change, MessageRefusal, Retired};
use sync_reset::Dropped;

/// The most bytes of a changeset.
const MOST_BYTES: usize = 16_777_216;

pub(crate) fn word_of(bytes: &[u8]) -> Result<(u32, &[u8]), MessageRefusal>
    ensures { Gives (λ x. (x.0, x.1.now)) result (word_in bytes.now) }
{
    match bytes.split_first_chunk::<4>() {
        Some((word, rest)) => Ok((u32::from_le_bytes(*word), rest)),
        None => Err(MessageRefusal::BadMessage),
    }
}

fn wide_of(bytes: &[u8]) -> Result<(u64, &[u8]), MessageRefusal>
    ensures { Gives (λ x. (x.0, x.1.now)) result (wide_in bytes.now) }
{
    match bytes.split_first_chunk::<8>() {
        Some((wide, rest)) => Ok((u64::from_le_bytes(*wide), rest)),
        None => Err(MessageRefusal::BadMessage),
    }
}

#[tactic(auto, unfolding(crate::specs::Heirs::retired_in))]
fn retired_of(bytes: &[u8]) -> Result<(Retired, &[u8]), MessageRefusal>
    ensures { Gives (λ x. (x.0, x.1.now)) result (retired_in bytes.now) }
{
    let (ident, rest) = word_of(bytes)?;
    let (by, rest) = word_of(rest)?;
    let (number, rest) = word_of(rest)?;
    if ident == 0 || by == 0 {
        return Err(MessageRefusal::BadMessage);
    }
    Ok((Retired::new(ident, by, number), rest))
}

#[tactic(auto, unfolding(crate::specs::Heirs::change_in))]
fn change_of(alloc: Global, bytes: &[u8]) -> Result<Change, MessageRefusal>
    ensures { Gives (λ x. (x, [])) result (change_in bytes.now) }
{
    let (number, rest) = word_of(bytes)?;
    let (base, rest) = word_of(rest)?;
    let (ms, rest) = wide_of(rest)?;
    if number == 0 || rest.len() > MOST_BYTES {
        return Err(MessageRefusal::BadMessage);
    }
    match Blob::new(alloc, rest) {
        Ok(body) => Ok(Change::new(number, base, ms, body)),
        Err(_) => Err(MessageRefusal::NoMemory),
    }
}

/// The retired ident, and the change.
fn inherited_of(alloc: Global, bytes: &[u8]) -> Result<(Retired, Change), MessageRefusal>
    ensures { Gives (λ x. ((x.0, x.1), [])) result (inherited_in bytes.now) }
{
    let (retired, rest) = retired_of(bytes)?;
    let change = change_of(alloc, rest)?;
    Ok((retired, change))
}

/// Why a change isn't saved.
fn decline_reset(refusal: ResetRefusal) -> Reply
    ensures { Resets (reset_seen refusal) result }
{
    match refusal {
        ResetRefusal::NotMine => Reply::Declined(plain(9)),
        ResetRefusal::Skips { expected, got } => {
            let expected = expected.min(u32::MAX as u64) as u32;
            Reply::Declined(of(20, expected, got, 0))
        }
        ResetRefusal::BadChange {
            number,
            offset,
            rule,
        } => Reply::Declined(of(21, number, offset, rule as u32)),
        ResetRefusal::Client(why) => decline(why),
        ResetRefusal::NoMemory => Reply::NoMemory,
    }
}

fn put_dropped(out: &mut Vec<u8>, dropped: &[Dropped]) -> Result<(), AllocError>
    ensures { OnOk result (out.new.items ≡ out.old.items ++ flat_map drop_bytes (map (λ d. (d.place, d.code)) dropped.now)) }
{
    for drop in dropped {
        put_word(out, drop.place)?;
        put_word(out, drop.code as u32)?;
    }
    Ok(())
}

fn put_answer(out: &mut Vec<u8>, answer: &Heir) -> Result<(), AllocError>
    ensures { OnOk result (out.new.items ≡ out.old.items ++ heir_bytes (heir_seen answer.now)) }
{
    match answer {
        Heir::Integrated => {
            out.push(0)?;
            Ok(())
        }
        Heir::Known => {
            out.push(1)?;
            Ok(())
        }
        Heir::Saved { number, dropped } => {
            out.push(2)?;
            put_word(out, *number)?;
            put_dropped(out, dropped.as_slice())
        }
    }
}

fn bytes_of(alloc: Global, answer: &Heir) -> Result<Vec<u8>, AllocError>
    ensures { IfOk result (λ bytes. bytes.items ≡ heir_bytes (heir_seen answer.now)) }
{
    let mut out = Vec::new(alloc);
    put_answer(&mut out, answer)?;
    Ok(out)
}

fn tell(alloc: Global, answer: &Heir) -> Reply
    ensures { IfTold result (reply_bytes result ≡ 0 ∷ heir_bytes (heir_seen answer.now)) }
{
    match bytes_of(alloc, answer) {
        Ok(bytes) => Reply::Bytes(bytes),
        Err(_) => Reply::NoMemory,
    }
}

/// The client takes a change of an ident that was given up for it.
fn take<D: Disk>(alloc: Global, client: &mut Client<D>, retired: &Retired, change: &Change) -> Reply
    ensures step { (records : List model.ClientRecord) → ClientStands records client.old → IfTold result (Answers (Some (heir_said (heir_step records retired.now change.now))) records result client.old client.new) }
    ensures lasts { (records : List model.ClientRecord) → ClientStands records client.old → Lasts (Some (heir_said (heir_step records retired.now change.now))) records client.old client.new }
    ensures begun { start_of client.new ≡ start_of client.old }
{
    match heir(alloc, client, retired, change) {
        Ok(answer) => tell(alloc, &answer),
        Err(refusal) => decline_reset(refusal),
    }
}

/// The client takes what these bytes are: a change of an ident that was given up for it.
pub(crate) fn inherit<D: Disk>(alloc: Global, client: &mut Client<D>, bytes: &[u8]) -> Reply
    ensures step { (records : List model.ClientRecord) → ClientStands records client.old → IfTold result (Answers (option_map (heir_answer records) (inherited_in bytes.now)) records result client.old client.new) }
    ensures lasts { (records : List model.ClientRecord) → ClientStands records client.old → Lasts (option_map (heir_answer records) (inherited_in bytes.now)) records client.old client.new }
    ensures begun { start_of client.new ≡ start_of client.old }
{
    match inherited_of(alloc, bytes) {
        Ok((retired, change)) => take(alloc, client, &retired, &change),
        Err(MessageRefusal::BadMessage) => Reply::BadRequest,
        Err(MessageRefusal::NoMemory) => Reply::NoMemory,
    }
}
