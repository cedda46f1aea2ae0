ghost use Rattle.std.specs.Prelude.{◌≡◌, ℕ, List, IfSome, IfNone, true};
ghost use Rattle.sync_host.specs.Verbs.{Asks, AsksNothingNew, is_new};
ghost use Rattle.sync_host.specs.declared.node.Node.TheVariants as nodes;
ghost use Rattle.sync_host.specs.declared.reply.Reply.TheVariants as replies;

use crate::node::Node;
use crate::reply::Reply;
use crate::verb::Verb;
use std::alloc::Global;

/// A request for the last reply.
const AGAIN: u8 = b'R';

/// A request for the outbox.
const OUTBOX: u8 = b'W';

/// A place for a client or a server behind one call: a request of bytes is answered by bytes (docs/FORMATS.md, "Requests of a
/// host").
#[derive(Drop)]
pub struct Host {
    alloc: Global,
    node: Node,
    reply: Reply,
}

/// What the first byte of a request is, and what follows.
fn asked(request: &[u8]) -> Option<(Verb, &[u8])>
    ensures asks { IfSome result (λ asked. Asks asked.0 asked.1.now request.now) }
    ensures found { IfSome result (λ asked. (verb : Verb) (body : List ℕ) → Asks verb body request.now → (asked.0 ≡ verb) × (asked.1.now ≡ body)) }
    ensures none { IfNone result ((verb : Verb) (body : List ℕ) → Asks verb body request.now → ⊥) }
{
    match request {
        [first, body @ ..] => match Verb::of(*first) {
            Some(verb) => Some((verb, body)),
            None => None,
        },
        [] => None,
    }
}

impl Host {
    ghost use Rattle.sync_host.specs.Nodes.{Answered};
    ghost use Rattle.sync_host.specs.Hosts.{Turned, again, node_of, reply_of};

    /// A place where no node is open.
    pub fn new(alloc: Global) -> Host
        ensures { node_of result ≡ nodes.None }
    {
        Host {
            alloc,
            node: Node::None,
            reply: Reply::Done,
        }
    }

    /// The reply to a request.
    fn reply_to(&mut self, request: &[u8]) -> Reply
        ensures answered { (verb : Verb) (body : List ℕ) → Asks verb body request.now → Answered verb body (node_of self.old) result (node_of self.new) }
        ensures no_request { AsksNothingNew request.now → (result ≡ replies.BadRequest) × (node_of self.new ≡ node_of self.old) }
    {
        match asked(request) {
            Some((verb, body)) => self.node.answer(self.alloc, verb, body),
            None => Reply::BadRequest,
        }
    }

    /// Does what a request asks for, and keeps its reply. One for the last reply leaves all as it is.
    fn renew(&mut self, request: &[u8])
        ensures answered { (verb : Verb) (body : List ℕ) → Asks verb body request.now → is_new verb ≡ true → Answered verb body (node_of self.old) (reply_of self.new) (node_of self.new) }
        ensures no_request { AsksNothingNew request.now → (request.now ≡ again → ⊥) → (reply_of self.new ≡ replies.BadRequest) × (node_of self.new ≡ node_of self.old) }
        ensures same { request.now ≡ again → self.new ≡ self.old }
    {
        match request {
            [AGAIN] => {}
            _ => self.reply = self.reply_to(request),
        }
    }

    /// Answers a request by bytes, of which as many are written as there is room for, and tells how many they are. The reply is
    /// kept, and `Again` asks for it; `Outbox` asks for what stands in the outbox, and its answer isn't kept.
    pub fn turn(&mut self, request: &[u8], into: &mut [u8]) -> usize
        ensures { Turned self.old request.now into.old result into.new self.new }
    {
        match request {
            [OUTBOX] => self.node.copy_outbox(into),
            _ => {
                self.renew(request);
                self.reply.write_to(into)
            }
        }
    }
}
