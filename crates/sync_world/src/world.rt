ghost use Rattle.std.specs.Prelude.{◌≡◌, ◌<◌, ◌++◌, length, List, map, None, Option, IfNone, IfOk, IfSome, OnOk};
ghost use Rattle.sync_model.specs.Bytes.{Name as ModelName};
ghost use Rattle.sync_model.specs.Reports.{node_line, report_of};
ghost use Rattle.sync_words.specs.Reports.{clients_text, report_text};
ghost use Rattle.std.specs.List.{position};
ghost use Rattle.sync_world.specs.Holding.{HoldsEach, named};
ghost use Rattle.sync_model.specs.Worlds as model;
ghost use Rattle.sync_exchange.specs.Profile.{the_profile};
ghost use Rattle.sync_server.specs.Serving.{IsServerOf, IsStored};

use crate::hub::Hub;
use crate::laws::worlds_read_back;
use crate::node::Node;
use byte_lists::ByteLists;
use std::alloc::Global;
use sync_client::Client;
use sync_data::{Id, Name, NoMemory};
use sync_disk::{Disk, MemoryDisk};
use sync_edits::Event;
use sync_server::Server;
use sync_words::{Outcome, put_client, put_server};

/// An exchange: a server and clients over disks in memory, all messages that were made, and the uuids that injected Binds
/// named.
#[derive(Drop)]
pub struct World {
    pub(crate) alloc: Global,
    pub(crate) hub: Hub,
    pub(crate) clients: Vec<Node>,
    pub(crate) messages: ByteLists,
    pub(crate) injected: Vec<Id>,
}

/// Puts the clients' parts of the report.
fn put_clients(alloc: Global, out: &mut Vec<u8>, clients: &[Node]) -> Result<(), NoMemory>
    ensures { (stops : ModelName → Option model.Stop) (nodes : List model.Node) → HoldsEach stops nodes clients.now → OnOk result (out.new.items ≡ out.old.items ++ clients_text (map (node_line the_profile) nodes)) }
{
    for node in clients {
        put_client(alloc, out, &node.name, &node.client)?;
    }
    Ok(())
}

/// The place of the client of a name.
fn place_of(clients: &[Node], name: &Name) -> Option<usize>
    ensures { result ≡ position (named name.now) clients.now }
{
    clients.iter().position(|node| *name == node.name)
}

impl World {
    ghost use Rattle.sync_world.specs.Holding.{Found, Happens, Holds, IsClient, Stands};
    ghost use Rattle.sync_world.specs.Events.{IsCounted, event_seen};

    /// A server over an empty disk, no client and no message.
    pub fn new(alloc: Global) -> Result<World, NoMemory>
        ensures { IfOk result (Holds model.empty_world) }
    {
        worlds_read_back();
        let hub = Hub::new(alloc)?;
        Ok(World {
            alloc,
            hub,
            clients: Vec::new(alloc),
            messages: ByteLists::new(alloc),
            injected: Vec::new(alloc),
        })
    }

    /// What an event comes to. After `NoMemory` the world isn't used again.
    pub fn step(&mut self, event: Event) -> Result<Outcome, NoMemory>
        requires { IsCounted event }
        ensures { (w : model.World) → Holds w self.old → Happens (model.happens the_profile w (event_seen event)) result self.new }
    {
        match event {
            Event::Client { name, id } => self.join(name, id),
            Event::Edit { client, ms, edits } => self.edit(&client, ms, edits),
            Event::Bind { client } => self.bind(&client),
            Event::Upload { client } => self.upload(&client),
            Event::Ask { client } => self.ask(&client),
            Event::Deliver { message, to } => self.deliver(message, &to),
            Event::Restart { node } => self.restart(&node),
            Event::Stop { node, at, leaves } => self.arm(&node, at, leaves),
            Event::Inject { message } => self.inject(&message),
            Event::Upgrade { client } => self.upgrade(&client),
            Event::Subscribe { client, tables } => self.subscribe(&client, tables),
        }
    }

    /// What is shown of the exchange (docs/FORMATS.md, "Report and dump").
    pub fn report(&self) -> Result<Vec<u8>, NoMemory>
        ensures { (w : model.World) → Holds w self.now → IfOk result (λ text. text.items ≡ report_text (report_of the_profile w)) }
    {
        worlds_read_back();
        let mut out = Vec::new(self.alloc);
        put_server(self.alloc, &mut out, &self.hub.server)?;
        put_clients(self.alloc, &mut out, self.clients.as_slice())?;
        Ok(out)
    }

    /// The place of the client of a name.
    pub(crate) fn find(&self, name: &Name) -> Option<usize>
        ensures found { (w : model.World) → Stands w self.now → Found w name.now result }
        ensures within { IfSome result (λ place. place < length self.now.clients.items) }
    {
        place_of(self.clients.as_slice(), name)
    }

    /// Whether a node has the name.
    pub(crate) fn is_node(&self, name: &Name) -> bool
        ensures { (w : model.World) → Stands w self.now → result ≡ model.is_node w name.now }
    {
        name.text() == "server" || self.find(name).is_some()
    }

    /// The client of a name; none where there is none.
    pub fn client(&self, name: &Name) -> Option<&Client<MemoryDisk>>
        ensures none { (w : model.World) → Holds w self.now → IfNone result (model.seek (model.has_name name.now) w.clients ≡ None) }
        ensures some { (w : model.World) → Holds w self.now → IfSome result (λ c. IsClient w name.now c.now) }
    {
        match self.find(name) {
            Some(place) => Some(&self.clients[place].client),
            None => None,
        }
    }

    /// The server.
    pub fn server(&self) -> &Server<MemoryDisk>
        ensures server { (w : model.World) → Holds w self.now → IsServerOf w.server result.now }
        ensures stored { (w : model.World) → Holds w self.now → IsStored w.server result.now }
    {
        &self.hub.server
    }
}
