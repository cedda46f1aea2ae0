// A journal over a disk that gathers: its appends come to the disk below together.
ghost use Rattle.std.specs.Prelude.{◌≡◌, ◌+◌, ◌≤◌, ℕ, List, length, OnOk, OnErr, false, true};
ghost use Rattle.sync_disk.specs.Disk.{HasCause, LeavesOnly, Told};
ghost use Rattle.gathered_disk.specs.Below.{below};

use crate::journal::Journal;
use gathered_disk::GatheredDisk;
use sync_disk::{Disk, DiskRefusal};

impl<D: Disk> Journal<D> {
    ghost use Rattle.sync_journal.specs.Landed.{IsLanded};
    ghost use Rattle.sync_journal.specs.Stands.{Stands, disk_of, is_closed};

    /// The same journal over a disk that gathers: from then on `land` brings what it appends to the disk.
    pub fn gathered(self) -> Journal<GatheredDisk<D>>
        ensures landed { (records : List (List ℕ)) → Stands records self → IsLanded records result }
        ensures below { below (disk_of result) ≡ disk_of self }
        ensures closed { is_closed result ≡ is_closed self }
    {
        Journal {
            alloc: self.alloc,
            disk: GatheredDisk::over(self.alloc, self.disk, self.end, self.closed),
            end: self.end,
            closed: self.closed,
        }
    }
}

impl<D: Disk> Journal<GatheredDisk<D>> {
    ghost use Rattle.sync_journal.specs.Landed.{HoldsBelow, IsLanded, StandsForEither};
    ghost use Rattle.sync_journal.specs.Stands.{Stands, disk_of, is_closed};

    /// Brings the records that it shows to the disk below, in four strokes at most. After an `Err` it is closed until it is
    /// opened again.
    pub fn land(&mut self) -> Result<(), DiskRefusal>
        // At `Ok` they are on the disk. A crash at any moment of the call leaves none of the new ones or all.
        ensures landed { (records : List (List ℕ)) → Stands records self.old → OnOk result (IsLanded records self.new) }
        ensures any_moment { (olds all : List (List ℕ)) → HoldsBelow olds (disk_of self.old) → Stands all self.old
            → LeavesOnly D.moment D.images_since (below (disk_of self.old)) (below (disk_of self.new)) (StandsForEither olds all) }

        // It closes where that fails, and a closed one fails.
        ensures closes { OnErr result (is_closed self.new ≡ true) }
        ensures stays_open { OnOk result ((is_closed self.old ≡ false) × (is_closed self.new ≡ false)) }

        // The disk below: its strokes, what no call changes, and the cause of a fault.
        ensures few { Told (D.content (below (disk_of self.old))) (λ b. length (D.strokes (below (disk_of self.new))) ≤ length (D.strokes (below (disk_of self.old))) + 4) }
        ensures origin { D.origin (below (disk_of self.new)) ≡ D.origin (below (disk_of self.old)) }
        ensures cause { HasCause (D.faults (below (disk_of self.old))) (D.faults (below (disk_of self.new))) result }
    {
        if self.closed {
            return Err(DiskRefusal::NoMemory);
        }
        self.closed = true;
        self.disk.land(self.end)?;
        self.closed = false;
        Ok(())
    }
}
