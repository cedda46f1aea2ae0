// A client over a file that recovers the changes of old clients.
ghost use Rattle.std.specs.Prelude.{◌≡◌, ◌≤◌, ◌++◌, ◌∷◌, [], ℕ, List, map, length, None, Some, Ok, Err, IfOk, IfSome};
ghost use Rattle.std.specs.List.{AllByRecursion};
ghost use Rattle.sync_disk.specs.Disk.{Rose};
ghost use Rattle.sync_model.specs.Clients.{ClientRecord, client_of};
ghost use Rattle.sync_model.specs.Resets.{count_known, recover_changes, recover_frame};
ghost use Rattle.sync_exchange.specs.Profile.{the_profile};
ghost use Rattle.sync_exchange.specs.Seen.{change_seen, message_seen};
ghost use Rattle.sync_heir.specs.Heirs.{heir_step};
ghost use Rattle.sync_words.specs.Words.{outcome_line, said};
ghost use Rattle.sync_messages.specs.declared.message.Message.{Message as CodeMessage};
ghost use Rattle.sync_node.specs.Heirs.{HandledSo, RecoversSo, SavedSo, counts_of, mine};
ghost use Rattle.sync_node.specs.Holding.{ClientStands, client_faults, client_origin};
ghost use Rattle.sync_node.specs.Runs.{AnswersSo};

use super::client_file::ClientStep;
use super::command::ItemEnd;
use super::recovery::{put_heir, put_refusal, put_words};
use std::alloc::Global;
use sync_client::Client;
use sync_data::{Ident, NoMemory};
use sync_disk::Disk;
use sync_heir::heir;
use sync_messages::{Change, Message, MessageRefusal, Retired, Upload, message_of};

/// Recovers the changes of old clients. It keeps the Retired messages that came for the client, the latest first.
#[derive(Drop)]
pub(crate) struct Recoverer {
    heard: Vec<Retired>,
}

/// The latest of an ident.
fn latest(heard: &[Retired], ident: Ident) -> Option<&Retired>
    ensures known { IfSome result (λ r. count_known ident (counts_of heard.now) ≡ Some r.now.number) }
    ensures none { result ≡ None → count_known ident (counts_of heard.now) ≡ None }
    ensures mine { (by : ℕ) → mine by heard.now → IfSome result (λ r. r.now.by ≡ by) }
{
    for retired in heard {
        if retired.ident() == ident {
            return Some(retired);
        }
    }
    None
}

/// The heir takes one change, and puts what it says of it. Whether it goes on with the next one.
fn save_one<D: Disk>(
    alloc: Global,
    client: &mut Client<D>,
    number: u32,
    retired: &Retired,
    change: &Change,
    out: &mut Vec<u8>,
) -> Result<bool, ItemEnd>
    ensures done { (records : List ClientRecord) → ClientStands records client.old
        → IfOk result (λ goes. HandledSo goes number change.now.number (heir_step records retired.now change.now) records out.old.items out.new.items client.new) }
    ensures bad { result ≡ Err ItemEnd.BadItem → ⊥ }
    ensures same { client_origin client.new ≡ client_origin client.old }
    ensures later { client_faults client.old ≤ client_faults client.new }
    ensures cause { result ≡ Err ItemEnd.DiskFault → Rose (client_faults client.old) (client_faults client.new) }
{
    match heir(alloc, client, retired, change) {
        Ok(answer) => match put_heir(alloc, out, number, change.number(), &answer) {
            Ok(()) => Ok(true),
            Err(NoMemory) => Err(ItemEnd::NoMemory),
        },
        Err(refusal) => {
            put_refusal(alloc, out, number, refusal)?;
            Ok(false)
        }
    }
}

/// The heir takes the changes one by one, up to the first that it refuses.
fn save_all<D: Disk>(
    alloc: Global,
    client: &mut Client<D>,
    number: u32,
    retired: &Retired,
    changes: &[Change],
) -> Result<Vec<u8>, ItemEnd>
    ensures done { (records : List ClientRecord) → ClientStands records client.old → retired.now.by ≡ (client_of the_profile records).ident
        → IfOk result (λ text. SavedSo number (recover_changes the_profile (client_of the_profile records) retired.now.number (map change_seen changes.now)) records text.items client.new) }
    ensures bad { result ≡ Err ItemEnd.BadItem → ⊥ }
    ensures same { client_origin client.new ≡ client_origin client.old }
    ensures later { client_faults client.old ≤ client_faults client.new }
    ensures cause { result ≡ Err ItemEnd.DiskFault → Rose (client_faults client.old) (client_faults client.new) }
{
    let mut out = Vec::new(alloc);
    'changes: for change in changes {
        if !save_one(alloc, client, number, retired, change, &mut out)? {
            return Ok(out);
        }
    }
    Ok(out)
}

/// The line of a word and numbers.
fn line(alloc: Global, number: u32, word: &str, numbers: &[u64]) -> Result<Vec<u8>, ItemEnd>
    ensures line { IfOk result (λ text. text.items ≡ outcome_line number (said word.now numbers.now)) }
    ensures bad { result ≡ Err ItemEnd.BadItem → ⊥ }
    ensures fault { result ≡ Err ItemEnd.DiskFault → ⊥ }
{
    let mut out = Vec::new(alloc);
    put_words(alloc, &mut out, number, word, numbers)?;
    Ok(out)
}

impl Recoverer {
    /// A Retired message came.
    fn hear<D: Disk>(
        &mut self,
        alloc: Global,
        client: &Client<D>,
        number: u32,
        retired: &Retired,
    ) -> Result<Vec<u8>, ItemEnd>
        ensures done { RecoversSo (CodeMessage.Retired retired.now) number self.old.heard.items client.now self.new.heard.items client.now result }
        ensures bad { result ≡ Err ItemEnd.BadItem → ⊥ }
        ensures fault { result ≡ Err ItemEnd.DiskFault → ⊥ }
    {
        if retired.by() != client.ident() {
            return line(alloc, number, "refused NotMine", &[]);
        }
        let kept = Retired::new(retired.ident(), retired.by(), retired.number());
        match self.heard.insert(0, kept) {
            Ok(()) => {
                let fields = [retired.ident() as u64, retired.number() as u64];
                line(alloc, number, "heir", &fields)
            }
            Err(_) => Err(ItemEnd::NoMemory),
        }
    }

    /// An Upload came.
    fn save<D: Disk>(
        &self,
        alloc: Global,
        client: &mut Client<D>,
        number: u32,
        upload: &Upload,
    ) -> Result<Vec<u8>, ItemEnd>
        ensures done { RecoversSo (CodeMessage.Upload upload.now) number self.now.heard.items client.old self.now.heard.items client.new result }
        ensures bad { result ≡ Err ItemEnd.BadItem → ⊥ }
        ensures same { client_origin client.new ≡ client_origin client.old }
        ensures later { client_faults client.old ≤ client_faults client.new }
        ensures cause { result ≡ Err ItemEnd.DiskFault → Rose (client_faults client.old) (client_faults client.new) }
    {
        match latest(self.heard.as_slice(), upload.ident()) {
            Some(retired) => save_all(alloc, client, number, retired, upload.changes()),
            None => line(alloc, number, "refused NoRetired", &[]),
        }
    }

    /// A message came.
    fn recover<D: Disk>(
        &mut self,
        alloc: Global,
        client: &mut Client<D>,
        number: u32,
        message: &Message,
    ) -> Result<Vec<u8>, ItemEnd>
        ensures done { RecoversSo message.now number self.old.heard.items client.old self.new.heard.items client.new result }
        ensures bad { result ≡ Err ItemEnd.BadItem → ⊥ }
        ensures same { client_origin client.new ≡ client_origin client.old }
        ensures later { client_faults client.old ≤ client_faults client.new }
        ensures cause { result ≡ Err ItemEnd.DiskFault → Rose (client_faults client.old) (client_faults client.new) }
    {
        match message {
            Message::Retired(retired) => self.hear(alloc, client, number, retired),
            Message::Upload(upload) => self.save(alloc, client, number, upload),
            _ => line(alloc, number, "refused NoRetired", &[]),
        }
    }
}

impl ClientStep for Recoverer {
    ghost use Rattle.sync_node.specs.Recovering.{Counts, heard, recover_step};
    ghost use Rattle.sync_node.specs.Heirs.{HasHeard, recover_says};

    ghost Notes = { Counts };

    ghost first = { [] };

    ghost noted = { heard };

    ghost step = { recover_step };

    ghost Keeps = { λ recoverer counts records. HasHeard counts records recoverer.heard.items };

    ghost says = { recover_says };

    fn begin(alloc: Global) -> Recoverer {
        Recoverer {
            heard: Vec::new(alloc),
        }
    }

    fn answer<D: Disk>(
        &mut self,
        alloc: Global,
        client: &mut Client<D>,
        number: u32,
        item: &[u8],
    ) -> Result<Vec<u8>, ItemEnd> {
        match message_of(alloc, item) {
            Ok(message) => self.recover(alloc, client, number, &message),
            Err(MessageRefusal::BadMessage) => Err(ItemEnd::BadItem),
            Err(MessageRefusal::NoMemory) => Err(ItemEnd::NoMemory),
        }
    }
}
