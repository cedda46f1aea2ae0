ghost use Rattle.std.specs.Prelude.{◌≡◌, bytes_eq};
ghost use Rattle.std.specs.List.{list_any};
ghost use Rattle.sync_model.specs.Worlds as model;
ghost use Rattle.sync_exchange.specs.Profile.{the_profile};
ghost use Rattle.sync_world.specs.Holding.{SaysCalled, id_of, subscribe_said, upgrade_said};

use crate::laws::worlds_read_back;
use crate::node::{Called, Node};
use crate::tables::tables_keep;
use crate::world::World;
use sync_data::{Id, Instr, Listed, Name, NoMemory};
use sync_subset::Subset;
use sync_words::Outcome;

/// What a transaction came to.
fn made(called: Called<u32>) -> Outcome
    ensures { SaysCalled model.Made called result }
{
    match called {
        Called::Answered(number) => Outcome::Made { number },
        Called::Declined(why) => Outcome::Declined { why },
        Called::Stopped => Outcome::Stopped,
    }
}

/// What a message that was taken came to.
pub(crate) fn took(called: Called<u32>) -> Outcome
    ensures { SaysCalled model.Took called result }
{
    match called {
        Called::Answered(cursor) => Outcome::Took { cursor },
        Called::Declined(why) => Outcome::Declined { why },
        Called::Stopped => Outcome::Stopped,
    }
}

/// What bringing a file to form 2 came to.
fn upgraded(called: Called<bool>) -> Outcome
    ensures { SaysCalled upgrade_said called result }
{
    match called {
        Called::Answered(true) => Outcome::Upgraded,
        Called::Answered(false) => Outcome::Current,
        Called::Declined(why) => Outcome::Declined { why },
        Called::Stopped => Outcome::Stopped,
    }
}

/// What naming a client's tables came to.
fn subscribed(called: Called<()>) -> Outcome
    ensures { SaysCalled subscribe_said called result }
{
    match called {
        Called::Answered(()) => Outcome::Subscribed,
        Called::Declined(why) => Outcome::Declined { why },
        Called::Stopped => Outcome::Stopped,
    }
}

fn has_id(node: &Node, id: &Id) -> bool
    ensures { result ≡ model.id_is id.now (id_of node.now) }
{
    match node.client.id() {
        Some(known) => *id == known,
        None => false,
    }
}

fn any_has_id(clients: &[Node], id: &Id) -> bool
    ensures { result ≡ list_any (λ node. model.id_is id.now (id_of node)) clients.now }
{
    clients.iter().any(|node| has_id(node, id))
}

fn is_among(ids: &[Id], id: &Id) -> bool
    ensures { result ≡ list_any (λ known. bytes_eq id.now known) ids.now }
{
    ids.iter().any(|known| *id == *known)
}

impl World {
    ghost use Rattle.sync_world.specs.Holding.{Happens, Holds, Stands};

    /// A client comes in.
    pub(crate) fn join(&mut self, name: Name, id: Id) -> Result<Outcome, NoMemory>
        ensures { (w : model.World) → Holds w self.old → Happens (model.joins the_profile w name id) result self.new }
    {
        worlds_read_back();
        if self.is_node(&name) {
            return Ok(Outcome::NameTaken);
        }
        if self.has_id(&id) || self.has_injected(&id) {
            return Ok(Outcome::UuidTaken);
        }
        let Ok(kept) = name.clone() else {
            return Err(NoMemory);
        };
        let node = Node::new(self.alloc, kept, id)?;
        match self.clients.push(node) {
            Ok(()) => Ok(Outcome::Joined { name }),
            Err(_) => Err(NoMemory),
        }
    }

    /// Whether a client has the uuid.
    fn has_id(&self, id: &Id) -> bool
        ensures { (w : model.World) → Stands w self.now → result ≡ model.is_there (model.seek (model.has_id the_profile id.now) w.clients) }
    {
        any_has_id(self.clients.as_slice(), id)
    }

    /// Whether an injected Bind named the uuid.
    fn has_injected(&self, id: &Id) -> bool
        ensures { (w : model.World) → Stands w self.now → result ≡ model.is_there (model.seek (λ u. bytes_eq id.now u) w.injected) }
    {
        is_among(self.injected.as_slice(), id)
    }

    /// A client commits a transaction.
    pub(crate) fn edit(
        &mut self,
        name: &Name,
        ms: u64,
        edits: Listed<Instr>,
    ) -> Result<Outcome, NoMemory>
        ensures { (w : model.World) → Holds w self.old → Happens (model.happens the_profile w (model.Edits name.now ms edits)) result self.new }
    {
        worlds_read_back();
        let Some(place) = self.find(name) else {
            return Ok(Outcome::NoNode);
        };
        match self.clients[place].commit(self.alloc, ms, edits.into_vec()) {
            Ok(called) => Ok(made(called)),
            Err(NoMemory) => Err(NoMemory),
        }
    }

    /// A client's file is brought to form 2.
    pub(crate) fn upgrade(&mut self, name: &Name) -> Result<Outcome, NoMemory>
        ensures { (w : model.World) → Holds w self.old → Happens (model.happens the_profile w (model.Upgrades name.now)) result self.new }
    {
        worlds_read_back();
        let Some(place) = self.find(name) else {
            return Ok(Outcome::NoNode);
        };
        match self.clients[place].upgrade(self.alloc) {
            Ok(called) => Ok(upgraded(called)),
            Err(NoMemory) => Err(NoMemory),
        }
    }

    /// A client names its tables.
    pub(crate) fn subscribe(&mut self, name: &Name, tables: Subset) -> Result<Outcome, NoMemory>
        ensures { (w : model.World) → Holds w self.old → Happens (model.happens the_profile w (model.Subscribes name.now tables)) result self.new }
    {
        worlds_read_back();
        tables_keep(&tables);
        let Some(place) = self.find(name) else {
            return Ok(Outcome::NoNode);
        };
        match self.clients[place].subscribe(self.alloc, tables) {
            Ok(called) => Ok(subscribed(called)),
            Err(NoMemory) => Err(NoMemory),
        }
    }
}
