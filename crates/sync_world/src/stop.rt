ghost use Rattle.std.specs.Prelude.{◌≤◌};

use sync_disk::Leaves;

/// For which write or sync of its node's next call a disk is armed, counted from 1, and what a crash then leaves.
#[derive(Clone, Copy)]
pub(crate) struct Stop {
    pub(crate) at: u32,
    pub(crate) leaves: Leaves,
    ghost counted: { 1 ≤ at },
}
