ghost use Rattle.std.specs.Prelude.{◌≡◌, ◌<◌, ◌+◌, ◌^◌, ◌∷◌, ◌++◌, [], List, length, IfSome, OnOk};
ghost use Rattle.sync_data.specs.declared.instr.Instr.{Instr};
ghost use Rattle.sync_model.specs.Worlds as model;
ghost use Rattle.sync_gen.specs.Clients.{name_of};
ghost use Rattle.sync_world.specs.Events.{IsCounted, event_seen};
ghost use Rattle.sync_words.specs.Outcomes.{outcome_seen};
ghost use Rattle.sync_top.specs.Counting.{Goes, HasRoom, counted};
ghost use Rattle.gen_law.specs.Generated.{exchanged, newest_to, world_by};
ghost use Rattle.gen_law.specs.Plans.{IsClient};
ghost use Rattle.gen_law.specs.Refusals.{is_refused};
ghost use Rattle.sync_top.specs.Telling.{is_made, is_message, one_if};

use std::alloc::Global;
use sync_data::{Name, NoMemory};
use sync_edits::Event;
use sync_gen::client_name;
use sync_messages::Message;
use sync_words::Outcome;
use sync_world::World;

/// What the events of an exchange came to.
#[derive(Clone, Copy, PartialEq, Eq)]
pub struct Counts {
    /// The messages that were made.
    pub messages: u32,
    /// The transactions that were made.
    pub made: u32,
    /// The events that were refused, and the replies that refuse.
    pub refused: u32,
}

/// Whether a message was made.
fn is_message(outcome: &Outcome) -> bool
    ensures { IfSome (outcome_seen outcome.now) (λ words. result ≡ is_message words) }
{
    matches!(outcome, Outcome::Messaged { .. } | Outcome::Replied { .. })
}

/// Whether a transaction was made.
fn is_made(outcome: &Outcome) -> bool
    ensures { IfSome (outcome_seen outcome.now) (λ words. result ≡ is_made words) }
{
    matches!(outcome, Outcome::Made { .. })
}

/// Whether an event was refused, or the reply to it refuses.
fn is_refused(outcome: &Outcome) -> bool
    ensures { IfSome (outcome_seen outcome.now) (λ words. result ≡ is_refused words) }
{
    match outcome {
        Outcome::Replied { reply, .. } => matches!(reply, Message::Refused { .. }),
        Outcome::Declined { .. }
        | Outcome::NameTaken
        | Outcome::UuidTaken
        | Outcome::NoNode
        | Outcome::NoMessage
        | Outcome::BadMessage
        | Outcome::OwnIdent => true,
        _ => false,
    }
}

/// One more, where it is so. A count stands still at its end.
fn plus_if(count: u32, more: bool) -> u32
    ensures { count + 1 < 2 ^ 32 → result ≡ count + one_if more }
{
    if !more || count == u32::MAX {
        return count;
    }
    count + 1
}

fn server_name() -> Name
    ensures { result ≡ model.server_name }
{
    Name::new("server").unwrap()
}

impl Counts {
    pub(crate) fn new() -> Counts
        ensures { result ≡ record { messages = 0; made = 0; refused = 0 } }
    {
        Counts {
            messages: 0,
            made: 0,
            refused: 0,
        }
    }

    /// Counts what an event came to.
    fn count(&mut self, outcome: &Outcome)
        ensures { IfSome (outcome_seen outcome.now) (λ words. HasRoom self.old → self.new ≡ counted self.old words) }
    {
        self.messages = plus_if(self.messages, is_message(outcome));
        self.made = plus_if(self.made, is_made(outcome));
        self.refused = plus_if(self.refused, is_refused(outcome));
    }

    /// An event happens, and what it comes to is counted.
    pub(crate) fn step(&mut self, world: &mut World, event: Event) -> Result<(), NoMemory>
        requires { IsCounted event }
        ensures { (es : List (model.Event Instr)) → length es + 1 < 2 ^ 32 → Goes es self.old world.old → OnOk result (Goes (es ++ event_seen event ∷ []) self.new world.new) }
    {
        let outcome = world.step(event)?;
        self.count(&outcome);
        Ok(())
    }

    /// What a client sends goes to the server, and the reply to the client.
    pub(crate) fn exchange(
        &mut self,
        world: &mut World,
        client: u32,
        sending: Event,
    ) -> Result<(), NoMemory>
        requires client { IsClient client }
        requires counted { IsCounted sending }
        ensures { (es : List (model.Event Instr)) → length es + 3 < 2 ^ 32 → Goes es self.old world.old
            → OnOk result (Goes (es ++ exchanged (name_of client) (event_seen sending) (world_by model.empty_world es)) self.new world.new) }
    {
        self.step(world, sending)?;
        let to = server_name();
        self.deliver_newest(world, to)?;
        let to = client_name(client);
        self.deliver_newest(world, to)
    }

    /// The newest message comes to a node.
    fn deliver_newest(&mut self, world: &mut World, to: Name) -> Result<(), NoMemory>
        ensures { (es : List (model.Event Instr)) → length es + 1 < 2 ^ 32 → Goes es self.old world.old
            → OnOk result (Goes (es ++ newest_to to (world_by model.empty_world es) ∷ []) self.new world.new) }
    {
        let message = self.messages;
        self.step(world, Event::Deliver { message, to })
    }
}
