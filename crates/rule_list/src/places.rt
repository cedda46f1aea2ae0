ghost use Rattle.std.specs.Prelude.{◌≡◌, ◌<◌, ◌==◌, if◌then◌else◌, Ok, Err};
ghost use Rattle.sync_base.specs.Rules.{spot, top};
ghost use Rattle.sync_base.specs.declared.answers.Mismatch.TheVariants as mismatches;

use sync_base::{Inside, ListErase, ListUpdate, Mismatch};

/// The length of the list on which both sides were made.
pub fn common_length(prior: u32, other: u32) -> Result<u32, Mismatch>
    ensures { result ≡ (if prior == other then Ok prior else Err mismatches.SizesDiffer) }
{
    if prior == other {
        Ok(prior)
    } else {
        Err(Mismatch::SizesDiffer)
    }
}

/// The same where one side is an insertion, which lengthens the list.
pub fn growing_length(prior: u32, other: u32) -> Result<u32, Mismatch>
    ensures { result ≡ (if prior == other then (if prior == top then Err mismatches.Range else Ok prior) else Err mismatches.SizesDiffer) }
{
    if prior != other {
        Err(Mismatch::SizesDiffer)
    } else if prior == u32::MAX {
        Err(Mismatch::Range)
    } else {
        Ok(prior)
    }
}

/// The update at another place, of a list of another length.
pub fn update_at(update: ListUpdate, place: u32, prior: u32) -> ListUpdate
    requires { place < prior }
    ensures { result ≡ record { cell = update.cell; spot = spot place prior; value = update.value } }
{
    let mut update = update;
    update.spot = Inside::new(place, prior).unwrap();
    update
}

/// The erasure at another place, of a list of another length.
pub fn erase_at(erase: ListErase, place: u32, prior: u32) -> ListErase
    requires { place < prior }
    ensures { result ≡ record { cell = erase.cell; spot = spot place prior } }
{
    let mut erase = erase;
    erase.spot = Inside::new(place, prior).unwrap();
    erase
}
