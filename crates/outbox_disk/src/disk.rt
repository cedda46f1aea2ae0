// The disk: what it holds and what a crash leaves is that of a disk in memory on which no call was set to fail.
ghost use Rattle.std.specs.Prelude.{◌≡◌, ◌+◌, ◌^◌, ◌<◌, ◌≤◌, [], List, ℕ, None, Some, length, IfOk};
ghost use Rattle.sync_disk.specs.Disk.{Only};
ghost use Rattle.sync_disk.specs.Faults.{IsSound};
ghost use Rattle.sync_disk.specs.contracts.memory.MemoryDiskDisk.TheImpl.{ghosts as memory};
ghost use Rattle.sync_disk.specs.contracts.memory.MemoryDiskDisk.TheImpl.Laws.{is_image-law, counts_now-law, only_now-law, by_strokes-law, none_failing-law, as_planned-law};
ghost use Rattle.sync_disk.specs.declared.leaves.Leaves.TheVariants.{Keep};
ghost use Rattle.outbox_disk.specs.Outbox.{outbox_bytes};

use crate::outbox::{add_sync, add_write};
use std::alloc::Global;
use sync_disk::{BeginsAnew, Disk, DiskRefusal, MemoryDisk, NoMemory};

/// A disk over the bytes of a file, which tells its content. What was asked of it since its outbox was emptied stands there
/// as bytes: docs/FORMATS.md, "The outbox".
#[derive(Drop)]
pub struct OutboxDisk {
    disk: MemoryDisk,
    outbox: Vec<u8>,
    ghost all_asked: { outbox.items ≡ outbox_bytes (memory.strokes disk) },
    ghost sound: { IsSound (memory.origin disk) },
}

impl OutboxDisk {
    /// A disk over these bytes, which stand synced.
    pub fn over(alloc: Global, bytes: &[u8]) -> Result<OutboxDisk, NoMemory>
        ensures content { IfOk result (λ disk. ⟦<OutboxDisk as Disk>⟧.content disk ≡ Some bytes.now) }
        ensures strokes { IfOk result (λ disk. ⟦<OutboxDisk as Disk>⟧.strokes disk ≡ []) }
        ensures images { IfOk result (λ disk. Only bytes.now (⟦<OutboxDisk as Disk>⟧.images disk)) }
        ensures origin { IfOk result (λ disk. ⟦<OutboxDisk as Disk>⟧.origin disk ≡ record { start = bytes.now; stop = None; leaves = Keep; listed = 0 }) }
    {
        let mut disk = MemoryDisk::new(alloc)?;
        match disk.write_at(0, bytes) {
            Ok(()) => {}
            Err(_) => return Err(NoMemory),
        }
        disk.begin_anew();
        Ok(OutboxDisk {
            disk,
            outbox: Vec::new(alloc),
        })
    }

    /// The outbox, for a host that does what stands in it, in order, and syncs.
    pub fn outbox(&self) -> &[u8]
        ensures { result.now ≡ outbox_bytes (⟦<OutboxDisk as Disk>⟧.strokes self.now) }
    {
        &self.outbox
    }
}

impl Disk for OutboxDisk {
    ghost content = { λ d. memory.content d.disk };

    ghost strokes = { λ d. memory.strokes d.disk };

    ghost images = { λ d. memory.images d.disk };

    ghost moment = { λ d. memory.moment d.disk };

    ghost images_since = { λ d. memory.images_since d.disk };

    ghost faults = { λ d. memory.faults d.disk };

    ghost origin = { λ d. memory.origin d.disk };

    ghost failing = { λ d. memory.failing d.disk };

    ghost is_image = { λ d. is_image-law d.disk };

    ghost counts_now = { λ d. counts_now-law d.disk };

    ghost only_now = { λ d. only_now-law d.disk };

    ghost by_strokes = { λ d. by_strokes-law d.disk };

    ghost none_failing = { λ d. none_failing-law d.disk };

    ghost as_planned = { λ d. as_planned-law d.disk };

    fn len(&mut self) -> Result<u64, DiskRefusal> {
        self.disk.len()
    }

    fn read_at(&mut self, place: u64, into: &mut [u8]) -> Result<(), DiskRefusal> {
        self.disk.read_at(place, into)
    }

    fn write_at(&mut self, place: u64, bytes: &[u8]) -> Result<(), DiskRefusal> {
        let had = self.outbox.len();
        match add_write(&mut self.outbox, place, bytes) {
            Ok(()) => {}
            Err(_) => {
                self.outbox.truncate(had);
                return Err(DiskRefusal::NoMemory);
            }
        }
        match self.disk.write_at(place, bytes) {
            Ok(()) => Ok(()),
            Err(refusal) => {
                self.outbox.truncate(had);
                Err(refusal)
            }
        }
    }

    fn sync(&mut self) -> Result<(), DiskRefusal> {
        let had = self.outbox.len();
        add_sync(&mut self.outbox)?;
        let done = self.disk.sync();
        if done.is_err() {
            self.outbox.truncate(had);
        }
        done
    }
}

/// Its outbox is emptied, once its host has done what stands in it and has synced.
impl BeginsAnew for OutboxDisk {
    fn begin_anew(&mut self) {
        self.disk.begin_anew();
        self.outbox.clear();
    }
}
