ghost use Rattle.std.specs.Prelude.{◌≡◌, ◌≤◌, length, map, IfOk};

use crate::code::{Code, refused};
use crate::server::MarkedServer;
use life_bytes::{Answered, GiveUp, GivenUp, Life};
use sync_data::{Id, Ident, NoMemory};
use sync_disk::Disk;
use sync_messages::{Message, Retire};
use sync_server::ServerRefusal;

impl<D: Disk> MarkedServer<D> {
    ghost use Rattle.marked_server.specs.Marked.{marks_of};

    /// Gives up the clients of whose files an heir saves what isn't there, and tells it up to which numbers of their lives that is
    /// so. Nothing but how soon late messages of the old clients are refused rests on their being given up.
    pub(crate) fn take_give_up(&mut self, given: &GiveUp) -> Result<Answered, ServerRefusal> {
        let by = given.by();
        if self.is_itself(given) {
            return Ok(Answered::Message(refused(by, 0, Code::SelfRetire, by)));
        }
        for uuid in given.uuids() {
            if let Some(refusal) = self.give_up_one(by, uuid)? {
                return Ok(Answered::Message(refusal));
            }
        }
        match self.numbers_of(given.lives()) {
            Ok(numbers) => Ok(Answered::GivenUp(GivenUp::new(by, numbers))),
            Err(NoMemory) => Err(self.out_of_memory()),
        }
    }

    /// Whether the heir is among those that it gives up.
    fn is_itself(&self, given: &GiveUp) -> bool {
        for uuid in given.uuids() {
            if self.server.ident_of(uuid) == Some(given.by()) {
                return true;
            }
        }
        false
    }

    /// A client that the history doesn't know is given up as well, so that a late Bind of it brings nothing in.
    fn give_up_one(&mut self, by: Ident, uuid: &Id) -> Result<Option<Message>, ServerRefusal>
        requires { 1 ≤ by }
    {
        let ident = match self.server.ident_of(uuid) {
            Some(ident) => ident,
            None => match self.serve(Message::Bind { uuid: *uuid })? {
                Message::Ident(given) => {
                    let ident = given.ident();
                    self.note_member(ident)?;
                    ident
                }
                reply => {
                    drop(reply);
                    let idents = self.server.idents();
                    return Ok(Some(refused(by, 0, Code::IdentsFull, idents)));
                }
            },
        };
        // Where it was given up before, for this heir or another, it stays so.
        drop(self.serve(Message::Retire(Retire::new(ident, by)))?);
        Ok(None)
    }

    fn numbers_of(&self, lives: &[Life]) -> Result<Vec<u32>, NoMemory>
        ensures told { IfOk result (λ numbers. numbers.items ≡ map (marks_of self.now).reached lives.now) }
        ensures count { IfOk result (λ numbers. length numbers.items ≡ length lives.now) }
    {
        let mut numbers = Vec::new(self.alloc);
        for life in lives {
            match numbers.push(self.marks.reached().of(*life)) {
                Ok(()) => {}
                Err(_) => return Err(NoMemory),
            }
        }
        Ok(numbers)
    }
}
