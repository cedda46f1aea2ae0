// A client over a file, and what it does of the items of an input.
ghost use Rattle.std.specs.Prelude.{◌≡◌, ◌++◌, ◌≤◌, ℕ, List, Option, ⊤, None, Some, Err, IfOk, map};
ghost use Rattle.sync_disk.specs.Disk.{Rose};
ghost use Rattle.sync_model.specs.Clients.{ClientRecord};
ghost use Rattle.sync_node.specs.Holding.{ClientStands, client_faults, client_origin};
ghost use Rattle.sync_node.specs.Runs.{Answer, AnswersSo, IsTold};
ghost use Rattle.sync_node.specs.declared.command.ItemEnd.{ItemEnd};

use super::command::{Command, ItemEnd};
use super::opening::{Ended, open_client};
use gathered_disk::GatheredDisk;
use std::alloc::Global;
use sync_client::Client;
use sync_disk::{Disk, DiskRefusal};

/// What a client does of the items of an input, one after another.
pub(crate) trait ClientStep: Drop {
    /// What is kept of the items before.
    ghost Notes: { Type 0 };

    /// What is kept before the first.
    ghost first: { Notes };

    /// What is kept behind an item, where these notes and records stood before it.
    ghost noted: { Notes → List ClientRecord → List ℕ → Notes };

    /// What answers the item of this number, or None where the item is no such one.
    ghost step: { Notes → List ClientRecord → ℕ → List ℕ → Option (Answer ClientRecord) };

    /// These notes are kept, beside a client of these records.
    ghost Keeps: { Self → Notes → List ClientRecord → Type 0 };

    /// Before the first item.
    fn begin(alloc: Global) -> Self
        ensures { (records : List ClientRecord) → Keeps result first records };

    /// Answers the item of this number.
    fn answer<D: Disk>(
        &mut self,
        alloc: Global,
        client: &mut Client<D>,
        number: u32,
        item: &[u8],
    ) -> Result<Vec<u8>, ItemEnd>
        ensures done { (notes : Notes) (records : List ClientRecord) → Keeps self.old notes records → ClientStands records client.old
            → IfOk result (λ text. AnswersSo (step notes records number item.now) records text.items (λ rs. Keeps self.new (noted notes records item.now) rs × ClientStands rs client.new)) }
        ensures bad { (notes : Notes) (records : List ClientRecord) → Keeps self.old notes records → ClientStands records client.old → result ≡ Err ItemEnd.BadItem
            → (step notes records number item.now ≡ None) × Keeps self.new notes records × ClientStands records client.new }
        ensures same { client_origin client.new ≡ client_origin client.old }
        ensures later { client_faults client.old ≤ client_faults client.new }
        ensures cause { result ≡ Err ItemEnd.DiskFault → Rose (client_faults client.old) (client_faults client.new) };

    /// An answer that says nothing adds no record.
    ghost says: { (notes : Notes) (records : List ClientRecord) (number : ℕ) (item : List ℕ) (answer : Answer ClientRecord) → step notes records number item ≡ Some answer
        → IsTold answer };
}

/// A client over a file that takes such steps.
#[derive(Drop)]
pub(crate) struct ClientFile<D: Disk, C: ClientStep> {
    alloc: Global,
    client: Client<D>,
    step: C,
}

impl<D: Disk, C: ClientStep> Command<D> for ClientFile<GatheredDisk<D>, C> {
    ghost use Rattle.sync_client.specs.Clients.{journal_of};
    ghost use Rattle.sync_exchange.specs.Seen.{client_bytes};
    ghost use Rattle.sync_journal.specs.Stands.{disk_of};
    ghost use Rattle.sync_node.specs.Landed.{GathersOver, below_client, held_below, loan_kept, still_over};
    ghost use Rattle.sync_node.specs.Opening.{client_file};

    ghost Record = { ClientRecord };

    ghost bytes_of = { client_bytes };

    ghost file_of = { client_file };

    ghost Notes = { C.Notes };

    ghost first = { C.first };

    ghost noted = { C.noted };

    ghost step = { C.step };

    ghost Stands = { λ file notes records. C.Keeps file.step notes records × ClientStands records file.client };

    ghost Holds = { λ file records. GathersOver (map client_bytes records) (disk_of (journal_of file.client)) };

    ghost disk_below = { λ file. below_client file.client };

    ghost origin = { λ file. client_origin file.client };

    ghost says = { λ notes records number item answer is. C.says notes records number item answer is };

    ghost held = { λ file records holds. held_below client_bytes records (disk_of (journal_of file.client)) holds };

    ghost holds_still = { λ old new records same holds. still_over (map client_bytes records) (disk_of (journal_of old.client)) (disk_of (journal_of new.client)) same holds };

    ghost loan_stays = { λ old new same. loan_kept (disk_of (journal_of old.client)) (disk_of (journal_of new.client)) same };

    fn open_file(alloc: Global, disk: D) -> Result<ClientFile<GatheredDisk<D>, C>, Ended<D>> {
        match open_client(alloc, disk) {
            Ok(client) => Ok(ClientFile {
                alloc,
                client: client.gathered(),
                step: C::begin(alloc),
            }),
            Err(ended) => Err(ended),
        }
    }

    fn answer(&mut self, number: u32, item: &[u8]) -> Result<Vec<u8>, ItemEnd> {
        self.step.answer(self.alloc, &mut self.client, number, item)
    }

    fn land_records(&mut self) -> Result<(), DiskRefusal> {
        self.client.journal.land()
    }

    fn close(self) -> D {
        self.client.into_disk().into_disk()
    }
}
