ghost use Rattle.std.specs.Prelude.{◌≡◌, ◌++◌, ◌∷◌, [], suc, length, List, IfOk, OnOk};
ghost use Rattle.sync_model.specs.Messages as model;
ghost use Rattle.sync_exchange.specs.Seen.{message_seen};
ghost use Rattle.sync_world.specs.Messages.{AreSpelled, ReadsAt, ReadsBytes};

use byte_lists::ByteLists;
use std::alloc::Global;
use sync_data::NoMemory;
use sync_messages::{Message, MessageRefusal, message_bytes, message_of};

/// Keeps a message as its bytes behind those that were made; answers its number, counted from 1.
pub(crate) fn keep(alloc: Global, made: &mut ByteLists, message: &Message) -> Result<u64, NoMemory>
    ensures number { (ms : List model.Message) → AreSpelled ms made.old → IfOk result (λ number. number ≡ suc (length ms)) }
    ensures kept { (ms : List model.Message) → AreSpelled ms made.old → OnOk result (AreSpelled (ms ++ message_seen message.now ∷ []) made.new) }
{
    let bytes = message_bytes(alloc, message)?;
    match made.push(bytes.as_slice()) {
        Ok(()) => Ok(made.len() as u64),
        Err(_) => Err(NoMemory),
    }
}

/// The message that bytes are; none where they are none.
pub(crate) fn read(alloc: Global, bytes: &[u8]) -> Result<Option<Message>, NoMemory>
    ensures { ReadsBytes bytes.now result }
{
    match message_of(alloc, bytes) {
        Ok(message) => Ok(Some(message)),
        Err(MessageRefusal::BadMessage) => Ok(None),
        Err(MessageRefusal::NoMemory) => Err(NoMemory),
    }
}

/// The message of a number, counted from 1; none where none of that number was made.
pub(crate) fn find(
    alloc: Global,
    made: &ByteLists,
    number: u32,
) -> Result<Option<Message>, NoMemory>
    ensures { (ms : List model.Message) → AreSpelled ms made.now → ReadsAt ms number result }
{
    if number == 0 {
        return Ok(None);
    }
    match made.get(number as usize - 1) {
        Some(bytes) => read(alloc, bytes),
        None => Ok(None),
    }
}
