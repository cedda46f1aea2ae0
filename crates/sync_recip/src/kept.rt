ghost use Rattle.std.specs.Prelude.{◌≤◌, ◌<◌, length, take, drop, All};
ghost use Rattle.sync_recip.specs.Lists.{versions, IsRising};

use super::shifted::ShiftedEntry;

/// An entry as a client's changes crossed it, and its version.
#[derive(Drop)]
pub(crate) struct Kept {
    pub(crate) version: u32,
    pub(crate) item: ShiftedEntry,
}

/// How many have a version below the base.
pub(crate) fn count_below(kept: &[Kept], base: u32) -> usize
    requires { IsRising (versions kept.now) }
    ensures bound { result ≤ length kept.now }
    ensures below { All (λ k. k.version < base) (take result kept.now) }
    ensures above { All (λ k. base ≤ k.version) (drop result kept.now) }
{
    kept.partition_point(|kept| kept.version < base)
}
