use crate::drawing::draw;
use crate::failure::Failure;
use std::alloc::Global;
use sync_app::Transaction;
use sync_changed::changed_by_edits;
use sync_client::{Client, ClientRefusal};
use sync_data::{Id, Instr};
use sync_disk::MemoryDisk;
use sync_messages::Message;
use sync_next::{commit, next_message, take};
use sync_server::Server;

/// The most messages of one sync. Here each sync takes four at most.
const MOST: u32 = 100;

/// A phone and the name of who holds it.
#[derive(Drop)]
pub(crate) struct Phone {
    pub(crate) name: &'static str,
    pub(crate) client: Client<MemoryDisk>,
}

impl Phone {
    /// A new client. Its uuid is drawn once, and is never another client's.
    pub(crate) fn new(alloc: Global, name: &'static str, id: Id) -> Result<Phone, Failure> {
        let Ok(mut client) = Client::open(alloc, MemoryDisk::new(alloc)?) else {
            return Err(Failure::Client(ClientRefusal::DiskFault));
        };
        client.born(id)?;
        Ok(Phone { name, client })
    }

    /// A transaction on the objects as they are.
    pub(crate) fn edits(&self, alloc: Global) -> Transaction<'_> {
        Transaction::new(alloc, self.client.objects())
    }

    /// Commits a transaction, and draws what it changed. The phone may be offline.
    pub(crate) fn commit(
        &mut self,
        rt: &HostRuntime,
        ms: u64,
        edits: Vec<Instr>,
    ) -> Result<(), Failure> {
        let places = changed_by_edits(rt.alloc(), &edits)?;
        commit(&mut self.client, ms, edits)?;
        draw(rt, self.name, &places)
    }

    /// Sends what the server lacks and takes what this phone lacks, and draws what came. Where it ends early, a later call begins anew:
    /// what is sent twice does no harm.
    pub(crate) fn sync(
        &mut self,
        rt: &HostRuntime,
        server: &mut Server<MemoryDisk>,
    ) -> Result<(), Failure> {
        let mut sent = 0;
        for _ in 0..MOST {
            let cursor = self.client.cursor();
            let next = next_message(&self.client, sent)?;
            let is_question = matches!(&next.message, Message::Ask(_));
            // An application has its network in the place of this call.
            let reply = server.take(next.message)?;
            let taken = take(rt.alloc(), &mut self.client, reply)?;
            sent = next.sent;
            draw(rt, self.name, &taken.places)?;
            if is_question && taken.answer? == cursor {
                break;
            }
        }
        Ok(())
    }
}
