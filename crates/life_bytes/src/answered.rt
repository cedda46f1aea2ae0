ghost use Rattle.std.specs.Prelude.{◌≡◌};
ghost use Rattle.life_bytes.specs.Envelopes.{may_answer, is_answered, lives_of_message, lives_answered};

use crate::given_up::GivenUp;
use sync_messages::Message;

/// What stands in an Answers.
#[derive(Drop)]
pub enum Answered {
    /// A message that a server sends: an Ident, a Download, a Refused or a Stored.
    Message(Message),
    /// Up to which numbers the history has what an heir asked for.
    GivenUp(GivenUp),
}

impl Answered {
    /// Whether a server sends it.
    pub(crate) fn is_answered(&self) -> bool
        ensures { result ≡ is_answered self.now }
    {
        match self {
            Answered::Message(message) => may_answer(message),
            Answered::GivenUp(_) => true,
        }
    }

    /// How many lives go with it.
    pub(crate) fn lives(&self) -> u32
        ensures { result ≡ lives_answered self.now }
    {
        match self {
            Answered::Message(Message::Download(download)) => download.entries().len() as u32 + 1,
            _ => 0,
        }
    }
}

fn may_answer(message: &Message) -> bool
    ensures { result ≡ may_answer message.now }
{
    match message {
        Message::Ident(_) => true,
        Message::Download(_) => true,
        Message::Refused {
            ident: _,
            number: _,
            code: _,
            place: _,
        } => true,
        Message::Stored(_) => true,
        _ => false,
    }
}
