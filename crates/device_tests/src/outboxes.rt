//! A disk whose host does its strokes.

use crate::disks::holds;
use outbox_disk::OutboxDisk;
use std::alloc::Global;
use sync_disk::{BeginsAnew, Disk, DiskRefusal};

/// A write of two bytes at place 3, a sync, and a write of two bytes at place 1.
const STROKES: &[u8] =
    b"W\x03\0\0\0\0\0\0\0\x02\0\0\0\0\0\0\0\x07\x08SW\x01\0\0\0\0\0\0\0\x02\0\0\0\0\0\0\0\x09\x0a";

/// Writes where the place lies within the content.
fn write<D: Disk>(disk: &mut D, place: u64, bytes: &[u8; 2]) -> Result<(), DiskRefusal> {
    if place > disk.len()? || place > 1000 {
        return Err(DiskRefusal::NoMemory);
    }
    disk.write_at(place, bytes)
}

/// A write, a sync and a write.
fn stroke<D: Disk>(disk: &mut D) -> Result<(), DiskRefusal> {
    write(disk, 3, &[7, 8])?;
    disk.sync()?;
    write(disk, 1, &[9, 10])
}

/// Whether the outbox has each stroke since it was emptied, in order.
pub(crate) fn an_outbox_has_each_stroke_since_it_was_emptied(alloc: Global) -> bool {
    let Ok(mut disk) = OutboxDisk::over(alloc, &[1, 2, 3, 4]) else {
        return false;
    };
    if !disk.outbox().is_empty() || stroke(&mut disk).is_err() || disk.outbox() != STROKES {
        return false;
    }
    disk.begin_anew();
    disk.outbox().is_empty() && holds(alloc, &mut disk, &[1, 9, 10, 7, 8])
}
