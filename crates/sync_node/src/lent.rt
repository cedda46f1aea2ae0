// A disk that is lent by value.
ghost use Rattle.std.specs.Prelude.{◌≡◌};
ghost use Rattle.sync_node.specs.Lent.{lent_origin, no_loan_is_zero};

use sync_disk::{Disk, DiskRefusal};

/// A disk that is lent by value, so that a node can hold it: each call goes to the disk that it borrows. A call that leaves its
/// origin as it is gives back the same loan: so what is said of a node's disk is said of the disk that was borrowed.
#[derive(Drop)]
pub struct Lent<'a, D: Disk> {
    disk: &'a mut D,
}

impl<'a, D: Disk> Lent<'a, D> {
    /// Lends a disk.
    pub fn of(disk: &'a mut D) -> Lent<'a, D>
        ensures same { result.disk.now ≡ disk.old }
        ensures loan { result.disk.ghost_name ≡ disk.entry.ghost_name }
    {
        Lent { disk }
    }
}

impl<'a, D: Disk> Disk for Lent<'a, D> {
    ghost content = { λ d. D.content d.disk.now };

    ghost strokes = { λ d. D.strokes d.disk.now };

    ghost images = { λ d. D.images d.disk.now };

    ghost moment = { λ d. D.moment d.disk.now };

    ghost images_since = { λ d. D.images_since d.disk.now };

    ghost faults = { λ d. D.faults d.disk.now };

    ghost origin = { λ d. lent_origin (D.origin d.disk.now) d.disk.ghost_name };

    ghost failing = { λ d. D.failing d.disk.now };

    ghost is_image = { λ d b told. D.is_image d.disk.now b told };

    ghost counts_now = { λ d t c le now. D.counts_now d.disk.now t c le now };

    ghost only_now = { λ d c left. D.only_now d.disk.now c left };

    ghost by_strokes = { λ d b c told image. D.by_strokes d.disk.now b c told image };

    ghost none_failing = { λ d b told none. absurd (no_loan_is_zero d.disk.ghost_name none) };

    ghost as_planned = { λ d b told none. absurd (no_loan_is_zero d.disk.ghost_name none) };

    fn len(&mut self) -> Result<u64, DiskRefusal> {
        self.disk.len()
    }

    fn read_at(&mut self, place: u64, into: &mut [u8]) -> Result<(), DiskRefusal> {
        self.disk.read_at(place, into)
    }

    fn write_at(&mut self, place: u64, bytes: &[u8]) -> Result<(), DiskRefusal> {
        self.disk.write_at(place, bytes)
    }

    fn sync(&mut self) -> Result<(), DiskRefusal> {
        self.disk.sync()
    }
}
