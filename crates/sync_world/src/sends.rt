ghost use Rattle.sync_model.specs.Worlds as model;
ghost use Rattle.sync_exchange.specs.Profile.{the_profile};
ghost use Rattle.sync_world.specs.Sending.{SentFrom};

use crate::laws::worlds_read_back;
use crate::messages;
use crate::node::{is_cut, is_lost};
use crate::world::World;
use sync_client::ClientRefusal;
use sync_data::{Name, NoMemory};
use sync_messages::Message;
use sync_words::Outcome;

impl World {
    ghost use Rattle.sync_world.specs.Holding.{Happens, Holds};

    /// Keeps a message that a client made, or tells its refusal.
    fn sent(&mut self, sent: Result<Message, ClientRefusal>) -> Result<Outcome, NoMemory>
        ensures { SentFrom sent self.old result self.new }
    {
        match sent {
            Ok(message) => {
                let place = messages::keep(self.alloc, &mut self.messages, &message)?;
                Ok(Outcome::Messaged { place })
            }
            Err(why) => {
                if is_lost(why) || is_cut(why) {
                    return Err(NoMemory);
                }
                Ok(Outcome::Declined { why })
            }
        }
    }

    /// A client makes the message that asks for its ident.
    pub(crate) fn bind(&mut self, name: &Name) -> Result<Outcome, NoMemory>
        ensures { (w : model.World) → Holds w self.old → Happens (model.happens the_profile w (model.Binds name.now)) result self.new }
    {
        worlds_read_back();
        let Some(place) = self.find(name) else {
            return Ok(Outcome::NoNode);
        };
        let sent = self.clients[place].bind();
        self.sent(sent)
    }

    /// A client makes the message that asks for the history.
    pub(crate) fn ask(&mut self, name: &Name) -> Result<Outcome, NoMemory>
        ensures { (w : model.World) → Holds w self.old → Happens (model.happens the_profile w (model.Asks name.now)) result self.new }
    {
        worlds_read_back();
        let Some(place) = self.find(name) else {
            return Ok(Outcome::NoNode);
        };
        let sent = self.clients[place].ask();
        self.sent(sent)
    }

    /// A client makes the message with its unsent changesets.
    pub(crate) fn upload(&mut self, name: &Name) -> Result<Outcome, NoMemory>
        ensures { (w : model.World) → Holds w self.old → Happens (model.happens the_profile w (model.Uploads name.now)) result self.new }
    {
        worlds_read_back();
        let Some(place) = self.find(name) else {
            return Ok(Outcome::NoNode);
        };
        let sent = self.clients[place].upload();
        self.sent(sent)
    }
}
