ghost use Rattle.std.specs.Prelude.{◌≡◌, ℕ, ◌+◌, ◌<◌, ◌≤◌, List, [], Option, None, Some, Err, IfOk, IfErr, IfSome, OnOk};
ghost use Rattle.sync_node.specs.Items.{frames_of};

use super::lines::read_status;
use super::reader::{Item, ItemReader};
use std::alloc::Global;
use sync_io::{FrameReader, NoMemory, Source, Status};

/// Reads the frames of an input.
#[derive(Drop)]
pub struct Frames {
    reader: FrameReader,
    count: u64,
}

impl ItemReader for Frames {
    ghost use Rattle.sync_node.specs.FrameItems.{IsReady, frames_ahead};

    ghost items_of = { frames_of };

    ghost ahead = { frames_ahead };

    ghost count = { λ frames. frames.count };

    ghost ready = { IsReady };

    fn new(alloc: Global) -> Result<Frames, NoMemory> {
        match FrameReader::new(alloc) {
            Ok(reader) => Ok(Frames { reader, count: 0 }),
            Err(_) => Err(NoMemory),
        }
    }

    // A frame is answered before the next one, however many were read.
    fn is_ahead(&self) -> bool {
        false
    }

    fn next<S: Source>(&mut self, source: &mut S) -> Result<Option<Item>, Status> {
        match self.reader.next(source) {
            Ok(Some(bytes)) => {
                self.count += 1;
                let number = self.count as u32;
                Ok(Some(Item { number, bytes }))
            }
            Ok(None) => Ok(None),
            Err(refusal) => Err(read_status(self.count, refusal)),
        }
    }
}
