ghost use Rattle.std.specs.Prelude.{◌≡◌, ◌↔◌, ℕ, ◌<◌, ◌≤◌, min, List, [], take, length, Some, IsErr, IfOk, IfSome, OnErr, Contains};
ghost use Rattle.sync_io.specs.Faults.{HasRisen, counted};
ghost use Rattle.sync_io.specs.Devices.{Gave};

use super::source::{Source, SourceFailed};
use std::marker::Model;

/// Bytes in memory as a source. Its calls are counted from 1, and those whose numbers are listed
/// fail.
#[derive(Drop)]
pub struct MemorySource {
    bytes: Vec<u8>,
    place: usize,
    calls: u64,
    failing: Vec<u64>,
    faults: u64,
}

impl Model for MemorySource {
    ghost use Rattle.std.specs.Prelude.{◌≤◌, drop, length};
    ghost use Rattle.sync_io.specs.Devices.{MemoryInput};

    ghost Value = { MemoryInput };

    ghost view = { λ s. record { left = drop s.place s.bytes.items; calls = s.calls; failing = s.failing.items; faults = s.faults } };

    ghost invariant = { λ s. s.place ≤ length s.bytes.items };
}

impl MemorySource {
    /// A source of these bytes, whose calls of these numbers fail.
    pub fn new(bytes: Vec<u8>, failing: Vec<u64>) -> MemorySource
        ensures { result ≡ record { left = bytes.items; calls = 0; failing = failing.items; faults = 0 } }
    {
        MemorySource {
            bytes,
            place: 0,
            calls: 0,
            failing,
            faults: 0,
        }
    }
}

impl Source for MemorySource {
    ghost left = { λ s. Some s.left };

    ghost faults = { λ s. s.faults };

    fn read(&mut self, into: &mut [u8]) -> Result<usize, SourceFailed>
        ensures count { IfOk result (λ n. n ≤ length into.old) }
        ensures bytes { IfOk result (λ n. Gave (take n into.new) (Some self.old.left) (Some self.new.left)) }
        ensures end { IfOk result (λ n. n ≡ 0 → 0 < length into.old → self.old.left ≡ []) }
        ensures kept { OnErr result (self.new.left ≡ self.old.left) }
        ensures faults { self.old.faults ≤ self.new.faults }
        ensures cause { OnErr result (HasRisen self.old.faults self.new.faults) }

        // A call fails just where its number is listed. Any other gives as much as there is and fits.
        ensures fails { IsErr result ↔ Contains self.old.failing (counted self.old.calls) }
        ensures most { IfOk result (λ n. n ≡ min (length into.old) (length self.old.left)) }
        ensures calls { self.new.calls ≡ counted self.old.calls }
        ensures failing { self.new.failing ≡ self.old.failing }
        ensures not_counted { IfOk result (λ _. self.new.faults ≡ self.old.faults) }
    {
        self.calls = self.calls.saturating_add(1);
        if self.failing.contains(&self.calls) {
            self.faults = self.faults.saturating_add(1);
            return Err(SourceFailed);
        }
        let left = &self.bytes[self.place..];
        let count = into.len().min(left.len());
        into[..count].copy_from_slice(&left[..count]);
        self.place += count;
        Ok(count)
    }
}
