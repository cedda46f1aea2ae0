ghost use Rattle.std.specs.Prelude.{◌≡◌, Err, IfOk, IfSome};
ghost use Rattle.sync_client.specs.Refusals.{refusal_seen};
ghost use Rattle.sync_words.specs.Outcomes.{outcome_text};
ghost use Rattle.sync_words.specs.Words.{outcome_line};
ghost use Rattle.sync_node.specs.Steps.{Declined};

use super::command::ItemEnd;
use std::alloc::Global;
use sync_client::ClientRefusal;
use sync_data::NoMemory;
use sync_words::Outcome;

/// Says what an item came to, if there was the memory.
pub(crate) fn say(alloc: Global, number: u32, outcome: &Outcome) -> Result<Vec<u8>, ItemEnd>
    ensures said { IfSome (outcome_text outcome.now) (λ said. IfOk result (λ text. text.items ≡ outcome_line number said)) }
    ensures bad { result ≡ Err ItemEnd.BadItem → ⊥ }
    ensures fault { result ≡ Err ItemEnd.DiskFault → ⊥ }
{
    match outcome.line(alloc, number) {
        Ok(line) => Ok(line),
        Err(NoMemory) => Err(ItemEnd::NoMemory),
    }
}

/// Says why a client refuses an item. A client whose disk failed or that found no memory says nothing more.
pub(crate) fn decline(
    alloc: Global,
    number: u32,
    refusal: ClientRefusal,
) -> Result<Vec<u8>, ItemEnd>
    ensures seen { IfOk result (λ text. Declined number text.items (refusal_seen refusal)) }
    ensures bad { result ≡ Err ItemEnd.BadItem → ⊥ }
    ensures fault { result ≡ Err ItemEnd.DiskFault → refusal ≡ ClientRefusal.DiskFault }
{
    match refusal {
        ClientRefusal::DiskFault => Err(ItemEnd::DiskFault),
        ClientRefusal::NoMemory | ClientRefusal::Closed => Err(ItemEnd::NoMemory),
        _ => say(alloc, number, &Outcome::Declined { why: refusal }),
    }
}
