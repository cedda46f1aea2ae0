//! Disks and journals over files of the host.
use crate::disks::holds;
use crate::hosts::{Calls, CountedHost};
use crate::journals::has_records;
use std::alloc::Global;
use std::path::PathBuf;
use std::rt::Files;
use std::{env, fs, process};
use sync_disk::{Disk, DiskRefusal, FileDisk};
use sync_journal::{Journal, OpenCause};

/// A path of that name for this process alone, where no file is.
pub(crate) fn path_of(rt: &HostRuntime, name: &str) -> Option<PathBuf> {
    let alloc = rt.alloc();
    let Ok(name) = format!(in alloc; "{name}_{}", process::id(rt.process())) else {
        return None;
    };
    let Ok(folder) = env::temp_dir(rt) else {
        return None;
    };
    let Ok(path) = folder.join(alloc, name.as_str()) else {
        return None;
    };
    let _ = fs::remove_file(rt, path.as_path().as_str());
    Some(path)
}

fn has_bytes(rt: &HostRuntime, path: &str, want: &[u8]) -> bool {
    match fs::read(rt, path) {
        Ok(bytes) => bytes.as_slice() == want,
        Err(_) => false,
    }
}

/// Whether a new file comes to be by the calls of a disk, and others are refused.
fn edits<R: Files + Drop>(alloc: Global, disk: &mut FileDisk<R>) -> bool {
    disk.len() == Ok(0)
        && disk.write_at(0, &[1, 2, 3]) == Ok(())
        && disk.write_at(2, &[4, 5]) == Ok(())
        && disk.sync() == Ok(())
        && holds(alloc, disk, &[1, 2, 4, 5])
        && disk.read_at(3, &mut [0, 0]) == Err(DiskRefusal::Failed)
        && disk.write_at(5, &[6]) == Err(DiskRefusal::Failed)
}

fn disk_over_a_file(rt: &HostRuntime, path: &str) -> bool {
    let Ok(mut disk) = FileDisk::at(rt, rt.alloc(), path) else {
        return false;
    };
    // Nothing is opened before the first call.
    let is_new = fs::read(rt, path).is_err();
    is_new && edits(rt.alloc(), &mut disk) && has_bytes(rt, path, &[1, 2, 4, 5])
}

/// The call of that number: the length, a read, a write of the bytes 8 and 9 at the place 1, or a sync.
fn call<R: Files + Drop>(disk: &mut FileDisk<R>, number: u64) -> Result<(), DiskRefusal> {
    match number {
        1 => match disk.len() {
            Ok(_) => Ok(()),
            Err(refusal) => Err(refusal),
        },
        2 => disk.read_at(0, &mut [0]),
        3 => disk.write_at(1, &[8, 9]),
        _ => disk.sync(),
    }
}

/// How many calls on an open file of the host a disk's call makes.
const CALLS: [(u64, u64); 4] = [(1, 1), (2, 2), (3, 3), (4, 1)];

type CountedDisk<'a> = FileDisk<CountedHost<'a>>;

fn counted<'a>(rt: &'a HostRuntime, calls: &'a Calls, path: &str) -> Option<CountedDisk<'a>> {
    FileDisk::at(CountedHost { rt, calls }, rt.alloc(), path).ok()
}

/// Whether each call fails where the host doesn't open the file, and nothing is made. The first call opens it, and a later one
/// does where that failed.
fn openings_fail(rt: &HostRuntime, calls: &Calls, disk: &mut CountedDisk<'_>, path: &str) -> bool {
    let mut all = true;
    for number in 1..=4 {
        calls.fail_at(1);
        all &= call(disk, number) == Err(DiskRefusal::Failed);
        all &= fs::read(rt, path).is_err();
    }
    calls.fail_at(0);
    all
}

/// Whether each call fails where one of its calls of the host does, and is done where the one behind them would.
fn calls_fail(rt: &HostRuntime, calls: &Calls, disk: &mut CountedDisk<'_>, path: &str) -> bool {
    let mut all = disk.write_at(0, &[1, 2, 3]) == Ok(());
    for (number, count) in CALLS {
        for failing in 1..=count {
            calls.fail_at(failing);
            all &= call(disk, number) == Err(DiskRefusal::Failed);
        }
        all &= has_bytes(rt, path, &[1, 2, 3]);
    }
    for (number, count) in CALLS {
        calls.fail_at(count.saturating_add(1));
        all &= call(disk, number) == Ok(());
    }
    all && has_bytes(rt, path, &[1, 8, 9])
}

fn host_that_fails(rt: &HostRuntime, path: &str) -> bool {
    let calls = Calls::none();
    match counted(rt, &calls, path) {
        Some(mut disk) => {
            openings_fail(rt, &calls, &mut disk, path) && calls_fail(rt, &calls, &mut disk, path)
        }
        None => false,
    }
}

/// Calls of a disk, and how many syncs of the host there were then.
const SYNCS: [(u64, u64); 5] = [(1, 0), (3, 0), (4, 1), (2, 1), (4, 2)];

fn disk_syncs(calls: &Calls, disk: &mut CountedDisk<'_>) -> bool {
    let mut all = true;
    for (number, want) in SYNCS {
        all &= disk.write_at(0, &[1, 2, 3]) == Ok(());
        all &= call(disk, number) == Ok(());
        all &= calls.syncs() == want;
    }
    all
}

/// Opening a new file syncs it twice, and so does each append.
fn journal_syncs(alloc: Global, calls: &Calls, disk: CountedDisk<'_>) -> bool {
    match Journal::open(alloc, disk) {
        Ok((mut journal, _records)) => {
            let opened = calls.syncs();
            opened == 2 && journal.append(&[1]) == Ok(()) && calls.syncs() == 4
        }
        Err(_) => false,
    }
}

fn host_that_counts(rt: &HostRuntime, path: &str) -> bool {
    let calls = Calls::none();
    let is_synced = match counted(rt, &calls, path) {
        Some(mut disk) => disk_syncs(&calls, &mut disk),
        None => false,
    };
    let others = Calls::none();
    is_synced
        && fs::remove_file(rt, path).is_ok()
        && match counted(rt, &others, path) {
            Some(disk) => journal_syncs(rt.alloc(), &others, disk),
            None => false,
        }
}

/// The file of a journal with two records.
const WHOLE: &[u8; 22] = b"RSYNCJ01\x01\x00\x00\x00\x01a\x01\x00\x00\x00\x02bc\x00";

/// The same cut short.
const CUT: &[u8; 19] = b"RSYNCJ01\x01\x00\x00\x00\x01a\x01\x00\x00\x00\x02";

fn appends(rt: &HostRuntime, path: &str) -> bool {
    let Ok(disk) = FileDisk::at(rt, rt.alloc(), path) else {
        return false;
    };
    match Journal::open(rt.alloc(), disk) {
        Ok((mut journal, _records)) => {
            journal.append(b"a") == Ok(()) && journal.append(b"bc") == Ok(())
        }
        Err(_) => false,
    }
}

fn reads(rt: &HostRuntime, path: &str) -> bool {
    match FileDisk::at(rt, rt.alloc(), path) {
        Ok(disk) => has_records(rt.alloc(), disk, &[b"a", b"bc"]),
        Err(_) => false,
    }
}

fn is_bad(rt: &HostRuntime, path: &str, place: u64) -> bool {
    let Ok(disk) = FileDisk::at(rt, rt.alloc(), path) else {
        return false;
    };
    match Journal::open(rt.alloc(), disk) {
        Ok(_) => false,
        Err(refusal) => refusal.cause == OpenCause::BadFile { place },
    }
}

fn journal_over_a_file(rt: &HostRuntime, path: &str) -> bool {
    appends(rt, path)
        && has_bytes(rt, path, WHOLE)
        && reads(rt, path)
        && fs::write(rt, path, CUT).is_ok()
        && is_bad(rt, path, 14)
}

/// Whether all is well at a path of that name, of which no file is left.
fn is_well(rt: &HostRuntime, name: &str) -> bool {
    let Some(path) = path_of(rt, name) else {
        return false;
    };
    let path = path.as_path().as_str();
    let is_well = match name {
        "disk_over_a_file" => disk_over_a_file(rt, path),
        "host_that_fails" => host_that_fails(rt, path),
        "host_that_counts" => host_that_counts(rt, path),
        _ => journal_over_a_file(rt, path),
    };
    fs::remove_file(rt, path).is_ok() && is_well
}

pub(crate) fn disks_and_journals_over_files(rt: &HostRuntime) -> bool {
    let mut all = true;
    for name in [
        "disk_over_a_file",
        "host_that_fails",
        "host_that_counts",
        "journal_over_a_file",
    ] {
        all &= is_well(rt, name);
    }
    all
}
