ghost use Rattle.std.specs.Prelude.{◌≡◌, ℕ, ◌<◌, ◌≤◌, List, [], take, length, Option, IfOk, IfSome, OnErr};
ghost use Rattle.sync_io.specs.Faults.{HasRisen};
ghost use Rattle.sync_io.specs.Devices.{Gave};

/// A read that failed. The source's count of faults rose.
#[derive(Clone, Copy, Debug, PartialEq, Eq)]
pub struct SourceFailed;

/// Where bytes come from. It counts its faults, and may tell the bytes that it has left.
pub trait Source {
    /// The bytes that are left, where the source tells them.
    ghost left: { Self → Option (List ℕ) };

    /// How many calls have failed.
    ghost faults: { Self → ℕ };

    /// Reads into the front of the piece, and answers how many bytes. Zero for a piece that isn't
    /// empty is the end of the input.
    fn read(&mut self, into: &mut [u8]) -> Result<usize, SourceFailed>
        ensures count { IfOk result (λ n. n ≤ length into.old) }
        ensures bytes { IfOk result (λ n. Gave (take n into.new) (left self.old) (left self.new)) }
        ensures end { IfOk result
            (λ n. n ≡ 0 → 0 < length into.old → IfSome (left self.old) (λ bytes. bytes ≡ [])) }
        ensures kept { OnErr result (left self.new ≡ left self.old) }
        ensures faults { faults self.old ≤ faults self.new }
        ensures cause { OnErr result (HasRisen (faults self.old) (faults self.new)) };
}
