ghost use Rattle.std.specs.Prelude.{IfOk};
ghost use Rattle.sync_world.specs.Disks.{IsEmpty};

use std::alloc::Global;
use sync_data::NoMemory;
use sync_disk::{Disk, MemoryDisk};

/// An empty disk, of which no call fails.
pub(crate) fn empty_disk(alloc: Global) -> Result<MemoryDisk, NoMemory>
    ensures { IfOk result (IsEmpty ⟦<MemoryDisk as Disk>⟧) }
{
    match MemoryDisk::new(alloc) {
        Ok(disk) => Ok(disk),
        Err(_) => Err(NoMemory),
    }
}
