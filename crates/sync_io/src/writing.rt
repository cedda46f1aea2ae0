ghost use Rattle.std.specs.Prelude.{◌≡◌, ◌≤◌, Err, OnOk, OnErr};
ghost use Rattle.sync_io.specs.Faults.{HasRisen};
ghost use Rattle.sync_io.specs.Devices.{Took, TookSome};

use super::sink::{Sink, SinkRefusal};

/// Writes all of the bytes. A refusal is that of the sink's call, and some of the bytes were taken
/// then, from their front. It takes no memory of its own.
pub fn write_all<K: Sink>(sink: &mut K, bytes: &[u8]) -> Result<(), SinkRefusal>
    ensures ok { OnOk result (Took bytes.now (K.taken sink.old) (K.taken sink.new)) }
    ensures err { OnErr result (TookSome bytes.now (K.taken sink.old) (K.taken sink.new)) }
    ensures faults { K.faults sink.old ≤ K.faults sink.new }
    ensures cause { result ≡ Err SinkRefusal.Failed → HasRisen (K.faults sink.old) (K.faults sink.new) }
{
    let mut done = 0;
    while done < bytes.len() {
        done += sink.write(&bytes[done..])?;
    }
    Ok(())
}
