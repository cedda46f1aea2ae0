ghost use Rattle.std.specs.Prelude.{◌≡◌, ℕ, ◌<◌, ◌≤◌, List, take, length, Option, Err, IfOk, OnOk, OnErr};
ghost use Rattle.sync_io.specs.Faults.{HasRisen};
ghost use Rattle.sync_io.specs.Devices.{Took, TookSome};

/// Why a sink took nothing more.
#[derive(Clone, Copy, Debug, PartialEq, Eq)]
pub enum SinkRefusal {
    /// The sink failed: its count of faults rose.
    Failed,
    /// Memory ran out.
    NoMemory,
}

/// Where bytes go. It counts its faults, and may tell the bytes that it took.
pub trait Sink {
    /// The bytes that were taken, where the sink tells them.
    ghost taken: { Self → Option (List ℕ) };

    /// How many calls have failed.
    ghost faults: { Self → ℕ };

    /// Takes bytes from the front of the piece, and answers how many: at least one of a piece that
    /// isn't empty.
    fn write(&mut self, bytes: &[u8]) -> Result<usize, SinkRefusal>
        ensures count { IfOk result (λ n. n ≤ length bytes.now) }
        ensures some { IfOk result (λ n. 0 < length bytes.now → 0 < n) }
        ensures bytes { IfOk result (λ n. Took (take n bytes.now) (taken self.old) (taken self.new)) }
        ensures err { OnErr result (TookSome bytes.now (taken self.old) (taken self.new)) }
        ensures no_memory { result ≡ Err SinkRefusal.NoMemory → taken self.new ≡ taken self.old }
        ensures faults { faults self.old ≤ faults self.new }
        ensures cause { result ≡ Err SinkRefusal.Failed → HasRisen (faults self.old) (faults self.new) };

    /// Hands on what was taken, as far as the sink kept it back.
    fn flush(&mut self) -> Result<(), SinkRefusal>
        ensures bytes { taken self.new ≡ taken self.old }
        ensures faults { faults self.old ≤ faults self.new }
        ensures cause { result ≡ Err SinkRefusal.Failed → HasRisen (faults self.old) (faults self.new) };
}
