ghost use Rattle.std.specs.Prelude.{◌≡◌, ℕ, ◌<◌, ◌≤◌, ◌+◌, min, take, length, None, Ok, Err, IfOk, OnOk, OnErr, IfErr};
ghost use Rattle.std.specs.Io.KnownBytes.{Appends, Keeps};
ghost use Rattle.sync_io.specs.Faults.{HasRisen};

use super::sink::{Sink, SinkRefusal};
use std::io;
use std::io::Write;

/// A writer of std as a sink. It tells no bytes. A write of nothing counts as a fault.
#[derive(Drop)]
pub struct StdSink<W> {
    inner: W,
    faults: u64,
}

impl<W: Write> StdSink<W> {
    /// That writer as a sink without faults.
    pub fn new(inner: W) -> StdSink<W>
        ensures { result.faults ≡ 0 }
    {
        StdSink { inner, faults: 0 }
    }
}

/// What a writer answered, as a sink answers it: each error counts as a fault, and nothing else does.
fn answer<T: Drop>(done: io::Result<T>, faults: &mut u64) -> Result<T, SinkRefusal>
    ensures ok { IfOk done (λ x. result ≡ Ok x) }
    ensures err { OnErr done (result ≡ Err SinkRefusal.Failed) }
    ensures same { OnOk done (faults.new ≡ faults.old) }
    ensures counted { OnErr done (HasRisen faults.old faults.new) }
    ensures later { faults.old ≤ faults.new }
{
    match done {
        Ok(x) => Ok(x),
        Err(_) => {
            *faults = faults.saturating_add(1);
            Err(SinkRefusal::Failed)
        }
    }
}

/// A write that took nothing of a piece that isn't empty failed.
fn took(done: io::Result<usize>, room: usize) -> io::Result<usize>
    ensures some { IfOk result (λ n. 0 < room → 0 < n) }
    ensures same { IfOk result (λ n. done ≡ Ok n) }
{
    match done {
        Ok(0) if room > 0 => Err(io::ErrorKind::WriteZero.into()),
        _ => done,
    }
}

impl<W: Write> Sink for StdSink<W> {
    ghost taken = { λ s. None };

    ghost faults = { λ s. s.faults };

    fn write(&mut self, bytes: &[u8]) -> Result<usize, SinkRefusal>
        ensures count { IfOk result (λ n. n ≤ length bytes.now) }
        ensures some { IfOk result (λ n. 0 < length bytes.now → 0 < n) }
        ensures only { IfErr result (λ refusal. refusal ≡ SinkRefusal.Failed) }
        ensures faults { self.old.faults ≤ self.new.faults }
        ensures cause { OnErr result (HasRisen self.old.faults self.new.faults) }

        // A writer that tells its bytes has those behind them that are answered for.
        ensures passed { IfOk result (λ n. Appends (W.contents self.old.inner) (W.contents self.new.inner) (take n bytes.now)) }
    {
        let done = self.inner.write(bytes);
        answer(took(done, bytes.len()), &mut self.faults)
    }

    fn flush(&mut self) -> Result<(), SinkRefusal>
        ensures only { IfErr result (λ refusal. refusal ≡ SinkRefusal.Failed) }
        ensures faults { self.old.faults ≤ self.new.faults }
        ensures cause { OnErr result (HasRisen self.old.faults self.new.faults) }
        ensures passed { Keeps (W.contents self.old.inner) (W.contents self.new.inner) }
    {
        answer(self.inner.flush(), &mut self.faults)
    }
}
