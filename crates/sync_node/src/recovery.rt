// The lines of a recovery.
ghost use Rattle.std.specs.Prelude.{◌≡◌, ◌++◌, OnOk, Err, map};
ghost use Rattle.sync_heir.specs.Heirs.{heir_seen, reset_seen};
ghost use Rattle.sync_words.specs.Words.{outcome_line, said};
ghost use Rattle.sync_node.specs.Recovering.{IsPutFor, dropped_lines, heir_lines};

use super::command::ItemEnd;
use super::outcome::decline;
use std::alloc::Global;
use sync_client::ClientRefusal;
use sync_data::NoMemory;
use sync_heir::{Heir, ResetRefusal};
use sync_reset::Dropped;
use sync_words::{put, put_number, put_said};

/// Puts the line of a word and numbers.
fn put_line(
    alloc: Global,
    out: &mut Vec<u8>,
    number: u32,
    word: &str,
    numbers: &[u64],
) -> Result<(), NoMemory>
    ensures { OnOk result (out.new.items ≡ out.old.items ++ outcome_line number (said word.now numbers.now)) }
{
    put_number(alloc, out, number as u64)?;
    put(out, " ")?;
    put_said(alloc, out, word, numbers)?;
    put(out, "\n")
}

/// The same, as a part of an answer.
pub(crate) fn put_words(
    alloc: Global,
    out: &mut Vec<u8>,
    number: u32,
    word: &str,
    numbers: &[u64],
) -> Result<(), ItemEnd>
    ensures put { OnOk result (out.new.items ≡ out.old.items ++ outcome_line number (said word.now numbers.now)) }
    ensures bad { result ≡ Err ItemEnd.BadItem → ⊥ }
    ensures fault { result ≡ Err ItemEnd.DiskFault → ⊥ }
{
    match put_line(alloc, out, number, word, numbers) {
        Ok(()) => Ok(()),
        Err(NoMemory) => Err(ItemEnd::NoMemory),
    }
}

/// Puts a line for each instruction that was dropped of a change.
fn put_dropped(
    alloc: Global,
    out: &mut Vec<u8>,
    number: u32,
    change: u32,
    dropped: &[Dropped],
) -> Result<(), NoMemory>
    ensures { OnOk result (out.new.items ≡ out.old.items ++ dropped_lines number change (map (λ d. (d.place, d.code)) dropped.now)) }
{
    for drop in dropped {
        let fields = [change as u64, drop.place as u64, drop.code as u64];
        put_line(alloc, out, number, "dropped", &fields)?;
    }
    Ok(())
}

/// Puts what became of a change.
pub(crate) fn put_heir(
    alloc: Global,
    out: &mut Vec<u8>,
    number: u32,
    change: u32,
    heir: &Heir,
) -> Result<(), NoMemory>
    ensures { OnOk result (out.new.items ≡ out.old.items ++ heir_lines number change (heir_seen heir.now)) }
{
    match heir {
        Heir::Integrated => put_line(alloc, out, number, "integrated", &[change as u64]),
        Heir::Known => put_line(alloc, out, number, "known", &[change as u64]),
        Heir::Saved {
            number: made,
            dropped,
        } => {
            put_line(alloc, out, number, "saved", &[change as u64, *made as u64])?;
            put_dropped(alloc, out, number, change, dropped.as_slice())
        }
    }
}

/// Puts why the heir's transaction is refused.
fn put_declined(
    alloc: Global,
    out: &mut Vec<u8>,
    number: u32,
    why: ClientRefusal,
) -> Result<(), ItemEnd>
    ensures put { OnOk result (IsPutFor number out.old.items out.new.items (reset_seen (ResetRefusal.Client why))) }
    ensures bad { result ≡ Err ItemEnd.BadItem → ⊥ }
    ensures fault { result ≡ Err ItemEnd.DiskFault → why ≡ ClientRefusal.DiskFault }
{
    let line = decline(alloc, number, why)?;
    match out.extend_from_slice(line.as_slice()) {
        Ok(()) => Ok(()),
        Err(_) => Err(ItemEnd::NoMemory),
    }
}

/// Puts why a change isn't saved. An heir whose disk failed or that found no memory says nothing more.
pub(crate) fn put_refusal(
    alloc: Global,
    out: &mut Vec<u8>,
    number: u32,
    refusal: ResetRefusal,
) -> Result<(), ItemEnd>
    ensures put { OnOk result (IsPutFor number out.old.items out.new.items (reset_seen refusal)) }
    ensures bad { result ≡ Err ItemEnd.BadItem → ⊥ }
    ensures fault { result ≡ Err ItemEnd.DiskFault → refusal ≡ ResetRefusal.Client ClientRefusal.DiskFault }
{
    match refusal {
        ResetRefusal::NotMine => put_words(alloc, out, number, "refused NotMine", &[]),
        ResetRefusal::Skips { expected, got } => {
            put_words(alloc, out, number, "refused Skips", &[expected, got as u64])
        }
        ResetRefusal::BadChange {
            number: change,
            offset,
            rule,
        } => {
            let fields = [change as u64, offset as u64, rule as u64];
            put_words(alloc, out, number, "refused BadChange", &fields)
        }
        ResetRefusal::Client(why) => put_declined(alloc, out, number, why),
        ResetRefusal::NoMemory => Err(ItemEnd::NoMemory),
    }
}
