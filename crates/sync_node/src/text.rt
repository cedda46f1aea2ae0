ghost use Rattle.std.specs.Prelude.{◌≡◌, ◌≤◌, ℕ, List, IfErr, IfOk, OnErr};
ghost use Rattle.sync_io.specs.Faults.{HasRisen};
ghost use Rattle.sync_node.specs.Texts.{IsTextStatus, Writes, write_status};

use std::alloc::Global;
use sync_data::NoMemory;
use sync_io::{Sink, SinkRefusal, Status, write_all};

/// The status of a run whose sink refused a write.
pub fn write_status(refusal: SinkRefusal) -> Status
    ensures { result ≡ write_status refusal }
{
    match refusal {
        SinkRefusal::Failed => Status::WriteFault,
        SinkRefusal::NoMemory => Status::NoMemory,
    }
}

/// Writes a text, if there was the memory to make it, and flushes the sink.
pub fn write_text<K: Sink>(sink: &mut K, made: Result<Vec<u8>, NoMemory>) -> Status
    // What is written is the text; after a fault and out of memory a part of it, from its front.
    ensures writes { (text : List ℕ) → IfOk made (λ bytes. bytes.items ≡ text) → Writes result text (K.taken sink.old) (K.taken sink.new) }
    ensures made { IfErr made (λ e. result ≡ Status.NoMemory) }

    // A fault has its cause.
    ensures faults { K.faults sink.old ≤ K.faults sink.new }
    ensures cause { result ≡ Status.WriteFault → HasRisen (K.faults sink.old) (K.faults sink.new) }
    ensures only { IsTextStatus result }
{
    let text = match made {
        Ok(text) => text,
        Err(NoMemory) => return Status::NoMemory,
    };
    if let Err(refusal) = write_all(sink, &text) {
        return write_status(refusal);
    }
    match sink.flush() {
        Ok(()) => Status::Done,
        Err(refusal) => write_status(refusal),
    }
}
