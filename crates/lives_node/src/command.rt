use life_bytes::Life;
use uuid::Uuid;

/// A command over a node whose file keeps lives.
#[derive(Clone, Copy, PartialEq, Eq)]
pub enum LivesCommand {
    /// A client does what lines say.
    Edit,
    /// A client's message: what it has unsent, or that it asks for an ident.
    Send,
    /// A client's question for the history.
    Ask,
    /// A client takes messages.
    Take,
    /// A server replies to messages.
    Serve,
}

/// A command over a client that takes over from the client of another file.
#[derive(Clone, Copy, PartialEq, Eq)]
pub enum HeirCommand {
    /// Its message that gives the old client up.
    Claim,
    /// It takes the answer, and saves what the history hasn't.
    Recover,
}

/// The command and the life in the words COMMAND FILE OLD LIFE; none where they are others.
pub fn heir_command_of(words: &[String]) -> Option<(HeirCommand, Life)> {
    match words {
        [name, _, _, word] => match heir_of(name.as_str()) {
            Some(command) => match life_of(word.as_str()) {
                Some(life) => Some((command, life)),
                None => None,
            },
            None => None,
        },
        _ => None,
    }
}

fn heir_of(name: &str) -> Option<HeirCommand> {
    match name {
        "claim" => Some(HeirCommand::Claim),
        "recover" => Some(HeirCommand::Recover),
        _ => None,
    }
}

/// The command and the life in the words COMMAND FILE LIFE; none where they are others. A life is written as a uuid.
pub fn lives_command_of(words: &[String]) -> Option<(LivesCommand, Life)> {
    match words {
        [name, _, word] => match command_of(name.as_str()) {
            Some(command) => match life_of(word.as_str()) {
                Some(life) => Some((command, life)),
                None => None,
            },
            None => None,
        },
        _ => None,
    }
}

fn command_of(name: &str) -> Option<LivesCommand> {
    match name {
        "edit" => Some(LivesCommand::Edit),
        "send" => Some(LivesCommand::Send),
        "ask" => Some(LivesCommand::Ask),
        "take" => Some(LivesCommand::Take),
        "serve" => Some(LivesCommand::Serve),
        _ => None,
    }
}

fn life_of(word: &str) -> Option<Life> {
    match Uuid::parse_str(word) {
        Ok(uuid) => Some(Life::new(uuid.into_bytes())),
        Err(_) => None,
    }
}
