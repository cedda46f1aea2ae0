ghost use Rattle.std.specs.Prelude.{◌≡◌, length};
ghost use Rattle.sync_client.specs.Files as client_files;
ghost use Rattle.sync_server.specs.Files as server_files;
ghost use Rattle.outbox_disk.specs.Outbox.{outbox_bytes};
ghost use Rattle.sync_host.specs.Replies.{over};

use crate::head::{tell_borne, tell_head};
use crate::hosted::{HostedClient, HostedServer};
use crate::opening::{open_client, open_server};
use crate::reply::{Reply, copy};
use crate::verb::Verb;
use std::alloc::Global;
use std::mem;

/// What stands in a host's place.
#[derive(Drop)]
pub(crate) enum Node {
    None,
    Client(HostedClient),
    Server(HostedServer),
}

/// Puts a node in the place of another.
fn put(place: &mut Node, node: Node)
    ensures { place.new ≡ node }
{
    drop(mem::replace(place, node));
}

impl Node {
    ghost use Rattle.sync_host.specs.Nodes.{Answered, NodeAnswers, Opened, OpensClient, OpensServer, TellsBad, emptied_reply};
    ghost use Rattle.sync_host.specs.Outboxes.{Emptied, strokes_in};

    /// Opens the client of these bytes of a file, in place of what stood there.
    fn open_client(&mut self, alloc: Global, file: &[u8]) -> Reply
        ensures opened { Opened (client_files.BadPlace file.now) (OpensClient file.now) result self.new }
        ensures tells { TellsBad (client_files.BadPlace file.now) result }
    {
        put(self, Node::None);
        match open_client(alloc, file) {
            Ok(client) => {
                let hosted = HostedClient {
                    client,
                    stored: 0,
                    changed: Vec::new(alloc),
                };
                put(self, Node::Client(hosted));
                Reply::Done
            }
            Err(reply) => reply,
        }
    }

    /// Opens the server of these bytes of a file, in place of what stood there.
    fn open_server(&mut self, alloc: Global, file: &[u8]) -> Reply
        ensures opened { Opened (server_files.BadPlace file.now) (OpensServer file.now) result self.new }
        ensures tells { TellsBad (server_files.BadPlace file.now) result }
    {
        put(self, Node::None);
        match open_server(alloc, file) {
            Ok(server) => {
                put(self, Node::Server(HostedServer { server }));
                Reply::Done
            }
            Err(reply) => reply,
        }
    }

    /// Asks the client or the server.
    fn ask(&mut self, alloc: Global, verb: Verb, body: &[u8]) -> Reply
        ensures { NodeAnswers verb body.now self.old result self.new }
    {
        match self {
            Node::None => Reply::Closed,
            Node::Client(hosted) => hosted.answer(alloc, verb, body),
            Node::Server(hosted) => hosted.answer(alloc, verb, body),
        }
    }

    fn outbox(&self) -> &[u8]
        ensures { result.now ≡ outbox_bytes (strokes_in self.now) }
    {
        match self {
            Node::None => &[],
            Node::Client(hosted) => hosted.client.journal.disk().outbox(),
            Node::Server(hosted) => hosted.server.journal.disk().outbox(),
        }
    }

    /// Copies the outbox, as far as there is room, and tells its length.
    pub(crate) fn copy_outbox(&self, into: &mut [u8]) -> usize
        ensures told { result ≡ length (outbox_bytes (strokes_in self.now)) }
        ensures copied { into.new ≡ over (outbox_bytes (strokes_in self.now)) into.old }
    {
        copy(self.outbox(), into)
    }

    /// Empties the outbox.
    fn empty_outbox(&mut self) -> Reply
        ensures told { result ≡ emptied_reply self.old }
        ensures emptied { Emptied self.old self.new }
    {
        match self {
            Node::None => Reply::Closed,
            Node::Client(hosted) => {
                hosted.empty();
                Reply::Done
            }
            Node::Server(hosted) => {
                hosted.empty();
                Reply::Done
            }
        }
    }

    /// Answers a request.
    pub(crate) fn answer(&mut self, alloc: Global, verb: Verb, body: &[u8]) -> Reply
        ensures { Answered verb body.now self.old result self.new }
    {
        match verb {
            Verb::OpenClient => self.open_client(alloc, body),
            Verb::OpenServer => self.open_server(alloc, body),
            Verb::Close => {
                *self = Node::None;
                Reply::Done
            }
            Verb::Done => self.empty_outbox(),
            Verb::Head => tell_head(alloc, body),
            Verb::Borne => tell_borne(alloc, body),
            Verb::Again | Verb::Outbox => Reply::BadRequest,
            _ => self.ask(alloc, verb, body),
        }
    }
}
