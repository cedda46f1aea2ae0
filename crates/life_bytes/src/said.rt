ghost use Rattle.std.specs.Prelude.{◌≡◌, ◌≤◌, length};
ghost use Rattle.sync_messages.specs.Parts.{most_listed};
ghost use Rattle.life_bytes.specs.Envelopes.{may_say, is_said, changes_of, changes_said};

use crate::give_up::GiveUp;
use sync_messages::{Change, Message};

/// What stands in a Says.
#[derive(Drop)]
pub enum Said {
    /// A message that a client sends: a Bind, an Upload, an Ask, an Ask2 or an AskTables.
    Message(Message),
    /// An heir gives up the clients whose transactions it saves.
    GiveUp(GiveUp),
}

impl Said {
    /// Whether a client sends it.
    pub(crate) fn is_said(&self) -> bool
        ensures { result ≡ is_said self.now }
    {
        match self {
            Said::Message(message) => may_say(message),
            Said::GiveUp(_) => true,
        }
    }

    /// The changes that it brings.
    pub(crate) fn changes(&self) -> &[Change]
        ensures value { result.now ≡ changes_said self.now }
        ensures few { length result.now ≤ most_listed }
    {
        match self {
            Said::Message(Message::Upload(upload)) => upload.changes(),
            _ => &[],
        }
    }
}

fn may_say(message: &Message) -> bool
    ensures { result ≡ may_say message.now }
{
    match message {
        Message::Bind { uuid: _ } => true,
        Message::Upload(_) => true,
        Message::Ask(_) => true,
        Message::Ask2(_) => true,
        Message::AskTables(_) => true,
        _ => false,
    }
}
