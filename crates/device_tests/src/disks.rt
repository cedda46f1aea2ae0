use std::alloc::Global;
use sync_disk::{Disk, DiskRefusal, Leaves, MemoryDisk};

/// Whether a read gives this content.
pub(crate) fn holds<D: Disk>(alloc: Global, disk: &mut D, want: &[u8]) -> bool {
    let Ok(len) = disk.len() else {
        return false;
    };
    let Ok(mut bytes) = vec![in alloc; 0u8; len as usize] else {
        return false;
    };
    disk.read_at(0, &mut bytes).is_ok() && bytes.as_slice() == want
}

/// A disk with these bytes, which are synced.
pub(crate) fn disk_with(alloc: Global, bytes: &[u8]) -> Option<MemoryDisk> {
    let Ok(mut disk) = MemoryDisk::new(alloc) else {
        return None;
    };
    if disk.write_at(0, bytes).is_ok() && disk.sync().is_ok() {
        Some(disk)
    } else {
        None
    }
}

/// Writes two bytes where the place lies within the content.
fn write(disk: &mut MemoryDisk, place: u64, bytes: &[u8; 2]) -> Result<(), DiskRefusal> {
    if place > disk.len()? || place > 1000 {
        return Err(DiskRefusal::NoMemory);
    }
    disk.write_at(place, bytes)
}

/// Two writes that overlap, and a sync.
fn three_strokes(disk: &mut MemoryDisk) -> Result<(), DiskRefusal> {
    write(disk, 1, &[7, 8])?;
    write(disk, 2, &[9, 10])?;
    disk.sync()
}

/// The call of that number: the length, a read, a write of the byte 2 or a sync.
fn call(disk: &mut MemoryDisk, number: u64) -> Result<(), DiskRefusal> {
    match number {
        1 => match disk.len() {
            Ok(_) => Ok(()),
            Err(refusal) => Err(refusal),
        },
        2 => disk.read_at(0, &mut []),
        3 => disk.write_at(0, &[2]),
        _ => disk.sync(),
    }
}

/// Each call of a disk that has stopped fails.
fn all_fail(disk: &mut MemoryDisk) -> bool {
    let mut all = true;
    for number in 1..=4 {
        all &= call(disk, number) == Err(DiskRefusal::Failed);
    }
    all
}

/// Whether the disk stops at that stroke, if there are as many.
fn stops(disk: &mut MemoryDisk, at: u32, leaves: Leaves) -> bool {
    disk.arm(at.max(1), leaves);
    let stops = at < 4;
    let failed = three_strokes(disk).is_err();
    failed == stops && disk.stopped() == stops && (!stops || all_fail(disk))
}

/// Whether a crash leaves these bytes, and the disk goes on.
fn crashes(alloc: Global, disk: &mut MemoryDisk, want: &[u8]) -> bool {
    disk.crash();
    !disk.stopped() && holds(alloc, disk, want) && keeps(disk)
}

/// Whether a crash of a disk that isn't armed keeps what was written.
fn keeps(disk: &mut MemoryDisk) -> bool {
    let is_written = disk.write_at(0, &[6]).is_ok();
    disk.crash();
    is_written && begins_with_6(disk)
}

fn begins_with_6(disk: &mut MemoryDisk) -> bool {
    match disk.len() {
        Ok(len) if len > 0 => {}
        _ => return false,
    }
    let mut first = [0];
    disk.read_at(0, &mut first).is_ok() && first == [6]
}

fn stops_and_crashes(alloc: Global, at: u32, leaves: Leaves, want: &[u8]) -> bool {
    match disk_with(alloc, &[1, 2, 3]) {
        Some(mut disk) => stops(&mut disk, at, leaves) && crashes(alloc, &mut disk, want),
        None => false,
    }
}

/// The stroke at which the disk is armed, what the crash is to leave, and what it leaves.
const CRASHES: [(u32, Leaves, &[u8]); 11] = [
    (1, Leaves::Drop, &[1, 2, 3]),
    (1, Leaves::Keep, &[1, 7, 8]),
    (1, Leaves::Torn, &[1, 7, 0x5a]),
    (2, Leaves::Drop, &[1, 2, 3]),
    (2, Leaves::Keep, &[1, 7, 9, 10]),
    (2, Leaves::Torn, &[1, 7, 0x5a, 0x5a]),
    (3, Leaves::Drop, &[1, 2, 3]),
    (3, Leaves::Keep, &[1, 7, 9, 10]),
    (3, Leaves::Torn, &[1, 7, 0x5a, 0x5a]),
    (4, Leaves::Drop, &[1, 7, 9, 10]),
    (4, Leaves::Torn, &[1, 7, 9, 10]),
];

pub(crate) fn a_crash_leaves_what_the_disk_was_armed_with(alloc: Global) -> bool {
    let mut all = true;
    for (at, leaves, want) in CRASHES {
        all &= stops_and_crashes(alloc, at, leaves, want);
    }
    all
}

/// Whether of five calls of a disk that one alone fails.
fn fails_at(disk: &mut MemoryDisk, set: u64) -> bool {
    let mut all = true;
    for number in 1..=5 {
        all &= call(disk, number).is_err() == (number == set);
    }
    all
}

fn calls_fail_at(alloc: Global, set: u64) -> bool {
    let Some(mut disk) = disk_with(alloc, &[1]) else {
        return false;
    };
    let left: &[u8] = if set == 3 { &[1] } else { &[2] };
    disk.fail_at(set).is_ok() && fails_at(&mut disk, set) && holds(alloc, &mut disk, left)
}

pub(crate) fn calls_fail_where_they_are_set_to(alloc: Global) -> bool {
    let mut all = true;
    for set in 1..=5 {
        all &= calls_fail_at(alloc, set);
    }
    all
}

pub(crate) fn a_disk_that_is_disarmed_goes_on(alloc: Global) -> bool {
    let Some(mut disk) = disk_with(alloc, &[1, 2, 3]) else {
        return false;
    };
    disk.arm(1, Leaves::Drop);
    disk.disarm();
    let done = three_strokes(&mut disk).is_ok();
    done && !disk.stopped() && holds(alloc, &mut disk, &[1, 7, 9, 10])
}
