ghost use Rattle.std.specs.Prelude.{◌≡◌, bytes_eq, false, true, OnOk};
ghost use Rattle.std.specs.List.{list_any};
ghost use Rattle.sync_model.specs.Files.{server_opens};
ghost use Rattle.sync_model.specs.Servers.{no_server};
ghost use Rattle.sync_model.specs.Worlds as model;
ghost use Rattle.sync_exchange.specs.Profile.{the_profile};
ghost use Rattle.sync_exchange.specs.Seen.{message_seen};
ghost use Rattle.sync_messages.specs.Whole.{IsMessage};
ghost use Rattle.sync_world.specs.Holding.{given_ids, id_of};
ghost use Rattle.sync_words.specs.Messages.{message_read};

use crate::edits::took;
use crate::laws::worlds_read_back;
use crate::messages;
use crate::node::Node;
use crate::world::World;
use sync_data::{Blob, Ident, Name, NoMemory};
use sync_disk::MemoryDisk;
use sync_messages::Message;
use sync_server::Server;
use sync_words::Outcome;

/// Whether the server gave the ident to that client.
fn is_of(node: &Node, server: &Server<MemoryDisk>, ident: Ident) -> bool
    ensures { result ≡ model.ident_is (given_ids server.now) ident (id_of node.now) }
{
    let Some(id) = node.client.id() else {
        return false;
    };
    match server.ident_of(&id) {
        Some(given) => given == ident,
        None => false,
    }
}

fn any_is_of(clients: &[Node], server: &Server<MemoryDisk>, ident: Ident) -> bool
    ensures { result ≡ list_any (λ node. model.ident_is (given_ids server.now) ident (id_of node)) clients.now }
{
    clients.iter().any(|node| is_of(node, server, ident))
}

impl World {
    ghost use Rattle.sync_world.specs.Holding.{Happens, Holds, Stands};

    /// The server takes a message.
    fn serve(&mut self, message: Message) -> Result<Outcome, NoMemory>
        ensures { (w : model.World) → Stands w self.old → server_opens the_profile no_server w.server ≡ true → IsMessage message → model.IsReached the_profile (model.server_called the_profile w (message_seen message)).world
            → Happens (model.server_called the_profile w (message_seen message)) result self.new }
    {
        worlds_read_back();
        match self.hub.take(self.alloc, message) {
            Ok(Some(reply)) => {
                let place = messages::keep(self.alloc, &mut self.messages, &reply)?;
                Ok(Outcome::Replied { place, reply })
            }
            Ok(None) => Ok(Outcome::Stopped),
            Err(NoMemory) => Err(NoMemory),
        }
    }

    /// A message that was made comes to a node.
    pub(crate) fn deliver(&mut self, number: u32, to: &Name) -> Result<Outcome, NoMemory>
        ensures { (w : model.World) → Holds w self.old → Happens (model.happens the_profile w (model.Delivers number to.now)) result self.new }
    {
        if to.text() == "server" {
            worlds_read_back();
            match messages::find(self.alloc, &self.messages, number) {
                Ok(Some(message)) => self.serve(message),
                Ok(None) => Ok(Outcome::NoMessage),
                Err(NoMemory) => Err(NoMemory),
            }
        } else {
            self.deliver_to_client(number, to)
        }
    }

    fn deliver_to_client(&mut self, number: u32, to: &Name) -> Result<Outcome, NoMemory>
        ensures { (w : model.World) → Holds w self.old → bytes_eq to.now model.server_name ≡ false → Happens (model.happens the_profile w (model.Delivers number to.now)) result self.new }
    {
        worlds_read_back();
        let Some(place) = self.find(to) else {
            return Ok(Outcome::NoNode);
        };
        let message = match messages::find(self.alloc, &self.messages, number) {
            Ok(Some(message)) => message,
            Ok(None) => return Ok(Outcome::NoMessage),
            Err(NoMemory) => return Err(NoMemory),
        };
        match self.clients[place].take(self.alloc, message) {
            Ok(called) => Ok(took(called)),
            Err(NoMemory) => Err(NoMemory),
        }
    }

    /// Whether the server gave the ident to a client of the exchange.
    fn is_own(&self, ident: Ident) -> bool
        ensures { (w : model.World) → Stands w self.now → server_opens the_profile no_server w.server ≡ true → result ≡ model.is_own the_profile w ident }
    {
        worlds_read_back();
        any_is_of(self.clients.as_slice(), &self.hub.server, ident)
    }

    /// Whether a message is one that only the client of its ident may make.
    fn names_own(&self, message: &Message) -> bool
        ensures { (w : model.World) → Stands w self.now → server_opens the_profile no_server w.server ≡ true → result ≡ model.names_own the_profile w (message_seen message.now) }
    {
        match message {
            Message::Upload(upload) => self.is_own(upload.ident()),
            Message::Ask(ask) | Message::Ask2(ask) => self.is_own(ask.ident()),
            Message::AskTables(asked) => self.is_own(asked.ask().ident()),
            Message::Retire(retire) => self.is_own(retire.ident()) || self.is_own(retire.by()),
            _ => false,
        }
    }

    /// Keeps the uuid that an injected Bind names.
    fn note(&mut self, message: &Message) -> Result<(), NoMemory>
        ensures { (w : model.World) → Stands w self.old → OnOk result (Stands (model.named_by w (message_seen message.now)) self.new) }
    {
        if let Message::Bind { uuid } = message {
            match self.injected.push(*uuid) {
                Ok(()) => {}
                Err(_) => return Err(NoMemory),
            }
        }
        Ok(())
    }

    /// Any bytes come to the server.
    pub(crate) fn inject(&mut self, bytes: &Blob) -> Result<Outcome, NoMemory>
        ensures { (w : model.World) → Holds w self.old → Happens (model.happens the_profile w (model.Injects (message_read bytes.now))) result self.new }
    {
        worlds_read_back();
        let message = match messages::read(self.alloc, bytes.bytes()) {
            Ok(Some(message)) => message,
            Ok(None) => return Ok(Outcome::BadMessage),
            Err(NoMemory) => return Err(NoMemory),
        };
        if self.names_own(&message) {
            return Ok(Outcome::OwnIdent);
        }
        match self.note(&message) {
            Ok(()) => {}
            Err(NoMemory) => return Err(NoMemory),
        }
        self.serve(message)
    }
}
