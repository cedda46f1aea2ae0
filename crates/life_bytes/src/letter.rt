use crate::answers::Answers;
use crate::says::Says;
use sync_messages::Message;

/// What a frame is: a message without lives, or what a client says or a server answers with them.
#[derive(Drop)]
pub enum Letter {
    Message(Message),
    Says(Says),
    Answers(Answers),
}
