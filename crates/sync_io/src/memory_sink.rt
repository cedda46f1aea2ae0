ghost use Rattle.std.specs.Prelude.{◌≡◌, ◌↔◌, ◌++◌, ℕ, ◌<◌, ◌≤◌, List, [], take, length, Ok, Err, Some, IsTrue, IfOk, OnOk, OnErr, Contains, true, false};
ghost use Rattle.sync_io.specs.Faults.{HasRisen, counted};
ghost use Rattle.sync_io.specs.Devices.{Took, TookSome};

use super::sink::{Sink, SinkRefusal};
use std::alloc::Global;
use std::marker::Model;

/// A sink that keeps its bytes in memory. Its calls are counted from 1, and those whose numbers are
/// listed fail.
#[derive(Drop)]
pub struct MemorySink {
    bytes: Vec<u8>,
    calls: u64,
    failing: Vec<u64>,
    faults: u64,
}

impl Model for MemorySink {
    ghost use Rattle.sync_io.specs.Devices.{MemoryOutput};

    ghost Value = { MemoryOutput };

    ghost view = { λ s. record { taken = s.bytes.items; calls = s.calls; failing = s.failing.items; faults = s.faults } };
}

impl MemorySink {
    /// A sink without bytes, whose calls of these numbers fail.
    pub fn new(alloc: Global, failing: Vec<u64>) -> MemorySink
        ensures { result ≡ record { taken = []; calls = 0; failing = failing.items; faults = 0 } }
    {
        MemorySink {
            bytes: Vec::new(alloc),
            calls: 0,
            failing,
            faults: 0,
        }
    }

    /// The bytes that were taken.
    pub fn bytes(&self) -> &[u8]
        ensures { result.now ≡ self.now.taken }
    {
        self.bytes.as_slice()
    }

    /// Counts a call, and says whether it is to fail.
    fn is_failing(&mut self) -> bool
        ensures fails { IsTrue result ↔ Contains self.old.failing (counted self.old.calls) }
        ensures taken { self.new.taken ≡ self.old.taken }
        ensures calls { self.new.calls ≡ counted self.old.calls }
        ensures failing { self.new.failing ≡ self.old.failing }
        ensures fault { result ≡ true → self.new.faults ≡ counted self.old.faults }
        ensures no_fault { result ≡ false → self.new.faults ≡ self.old.faults }
        ensures grows { self.old.faults ≤ self.new.faults }
    {
        self.calls = self.calls.saturating_add(1);
        let is_failing = self.failing.contains(&self.calls);
        if is_failing {
            self.faults = self.faults.saturating_add(1);
        }
        is_failing
    }
}

impl Sink for MemorySink {
    ghost taken = { λ s. Some s.taken };

    ghost faults = { λ s. s.faults };

    fn write(&mut self, bytes: &[u8]) -> Result<usize, SinkRefusal>
        ensures count { IfOk result (λ n. n ≤ length bytes.now) }
        ensures some { IfOk result (λ n. 0 < length bytes.now → 0 < n) }
        ensures bytes { IfOk result (λ n. Took (take n bytes.now) (Some self.old.taken) (Some self.new.taken)) }
        ensures err { OnErr result (TookSome bytes.now (Some self.old.taken) (Some self.new.taken)) }
        ensures no_memory { result ≡ Err SinkRefusal.NoMemory → Some self.new.taken ≡ Some self.old.taken }
        ensures faults { self.old.faults ≤ self.new.faults }
        ensures cause { result ≡ Err SinkRefusal.Failed → HasRisen self.old.faults self.new.faults }

        // A call fails just where its number is listed, and takes nothing then. Any other takes all.
        ensures fails { (result ≡ Err SinkRefusal.Failed) ↔ Contains self.old.failing (counted self.old.calls) }
        ensures all { IfOk result (λ n. n ≡ length bytes.now) }
        ensures none { OnErr result (self.new.taken ≡ self.old.taken) }
        ensures calls { self.new.calls ≡ counted self.old.calls }
        ensures failing { self.new.failing ≡ self.old.failing }
        ensures not_counted { OnOk result (self.new.faults ≡ self.old.faults) }
    {
        if self.is_failing() {
            return Err(SinkRefusal::Failed);
        }
        if self.bytes.extend_from_slice(bytes).is_err() {
            return Err(SinkRefusal::NoMemory);
        }
        Ok(bytes.len())
    }

    fn flush(&mut self) -> Result<(), SinkRefusal>
        ensures bytes { Some self.new.taken ≡ Some self.old.taken }
        ensures faults { self.old.faults ≤ self.new.faults }
        ensures cause { result ≡ Err SinkRefusal.Failed → HasRisen self.old.faults self.new.faults }

        // A call fails just where its number is listed.
        ensures fails { (result ≡ Err SinkRefusal.Failed) ↔ Contains self.old.failing (counted self.old.calls) }
        ensures only { OnErr result (result ≡ Err SinkRefusal.Failed) }
        ensures calls { self.new.calls ≡ counted self.old.calls }
        ensures failing { self.new.failing ≡ self.old.failing }
        ensures not_counted { OnOk result (self.new.faults ≡ self.old.faults) }
    {
        if self.is_failing() {
            return Err(SinkRefusal::Failed);
        }
        Ok(())
    }
}
