// What a client does of node lines and of messages.
ghost use Rattle.std.specs.Prelude.{◌≡◌, ◌++◌, ◌≤◌, ℕ, List, ⊤, None, Some, Err, IfOk};

use super::calls::{take, take_line};
use super::client_file::ClientStep;
use super::command::ItemEnd;
use std::alloc::Global;
use sync_client::Client;
use sync_disk::Disk;
use sync_edits::{LineRefusal, node_line_of};
use sync_messages::{MessageRefusal, message_of};

/// Does what node lines say.
#[derive(Drop)]
pub(crate) struct Editor {}

/// Takes messages.
#[derive(Drop)]
pub(crate) struct Taker {}

impl ClientStep for Editor {
    ghost use Rattle.sync_node.specs.Runs.{no_notes};
    ghost use Rattle.sync_node.specs.Saying.{edit_says};
    ghost use Rattle.sync_node.specs.Steps.{edit_step};

    ghost Notes = { ⊤ };

    ghost first = { tt };

    ghost noted = { no_notes };

    ghost step = { λ notes. edit_step };

    ghost Keeps = { λ editor notes records. ⊤ };

    ghost says = { λ notes. edit_says };

    fn begin(_alloc: Global) -> Editor {
        Editor {}
    }

    fn answer<D: Disk>(
        &mut self,
        alloc: Global,
        client: &mut Client<D>,
        number: u32,
        item: &[u8],
    ) -> Result<Vec<u8>, ItemEnd> {
        match node_line_of(alloc, item) {
            Ok(line) => take_line(alloc, client, number, line),
            Err(LineRefusal::BadLine) => Err(ItemEnd::BadItem),
            Err(LineRefusal::NoMemory) => Err(ItemEnd::NoMemory),
        }
    }
}

impl ClientStep for Taker {
    ghost use Rattle.sync_node.specs.Runs.{no_notes};
    ghost use Rattle.sync_node.specs.Saying.{take_says};
    ghost use Rattle.sync_node.specs.Steps.{take_step};

    ghost Notes = { ⊤ };

    ghost first = { tt };

    ghost noted = { no_notes };

    ghost step = { λ notes. take_step };

    ghost Keeps = { λ taker notes records. ⊤ };

    ghost says = { λ notes. take_says };

    fn begin(_alloc: Global) -> Taker {
        Taker {}
    }

    fn answer<D: Disk>(
        &mut self,
        alloc: Global,
        client: &mut Client<D>,
        number: u32,
        item: &[u8],
    ) -> Result<Vec<u8>, ItemEnd> {
        match message_of(alloc, item) {
            Ok(message) => take(alloc, client, number, message),
            Err(MessageRefusal::BadMessage) => Err(ItemEnd::BadItem),
            Err(MessageRefusal::NoMemory) => Err(ItemEnd::NoMemory),
        }
    }
}
