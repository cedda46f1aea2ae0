use crate::frame::put;
use std::alloc::Global;
use sync_data::NoMemory;
use sync_io::{Sink, Source, Status, write_all};
use sync_node::{ItemReader, write_status};

/// A node that answers lines or frames.
pub(crate) trait Answers {
    /// The answer to an item of that number; or how the command ends.
    fn answer(&mut self, number: u32, item: &[u8]) -> Result<Vec<u8>, Status>;

    /// Brings what it wrote to the disk.
    fn land(&mut self) -> Result<(), Status>;
}

/// Answers all items. Answers wait while a further item was read already: what one read gave lands together.
pub(crate) fn answer_items<S: Source, K: Sink, I: ItemReader, A: Answers>(
    alloc: Global,
    source: &mut S,
    sink: &mut K,
    node: &mut A,
) -> Status {
    let mut items = match I::new(alloc) {
        Ok(items) => items,
        Err(_) => return Status::NoMemory,
    };
    let mut answers = Vec::new(alloc);
    'items: loop {
        let item = match items.next(source) {
            Ok(Some(item)) => item,
            Ok(None) => return finish(sink, node, &mut answers, Status::Done),
            Err(status) => return finish(sink, node, &mut answers, status),
        };
        match node.answer(item.number, item.bytes.as_slice()) {
            Ok(text) => match put(&mut answers, text.as_slice()) {
                Ok(()) => {}
                Err(NoMemory) => return Status::NoMemory,
            },
            Err(Status::BadInput { place }) => {
                return finish(sink, node, &mut answers, Status::BadInput { place });
            }
            Err(status) => return status,
        }
        if items.is_ahead() {
            continue 'items;
        }
        match flush(sink, node, &mut answers) {
            Ok(()) => {}
            Err(status) => return status,
        }
    }
}

/// Brings what the node wrote to the disk, and then writes the answers that wait for it.
fn flush<K: Sink, A: Answers>(
    sink: &mut K,
    node: &mut A,
    answers: &mut Vec<u8>,
) -> Result<(), Status> {
    match node.land() {
        Ok(()) => {}
        Err(status) => return Err(status),
    }
    match write_all(sink, answers) {
        Ok(()) => {}
        Err(refusal) => return Err(write_status(refusal)),
    }
    answers.clear();
    match sink.flush() {
        Ok(()) => Ok(()),
        Err(refusal) => Err(write_status(refusal)),
    }
}

fn finish<K: Sink, A: Answers>(
    sink: &mut K,
    node: &mut A,
    answers: &mut Vec<u8>,
    status: Status,
) -> Status {
    match flush(sink, node, answers) {
        Ok(()) => status,
        Err(fault) => fault,
    }
}
