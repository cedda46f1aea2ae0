//! One writer a file: a lock that a command holds on its file from opening to its end, so that two commands at once
//! can't write over each other's records. It is the host's advisory lock on the whole file (`flock` on Linux): it binds
//! those that ask for it, and goes with the process that holds it, also where that is killed.
#![tactic(auto)]

use std::fs;
use std::fs::{File, OpenFile, OpenOptions, TryLockError};
use std::os::unix::fs::MetadataExt;
use std::rt::Files;

/// How often a file is opened again that another took the place of between its opening and its lock.
const OPENINGS: usize = 100;

/// Why a file isn't held.
#[derive(Clone, Copy, Debug, PartialEq, Eq)]
pub enum LockRefusal {
    /// Another opening of the file, in this process or in another, holds it.
    Busy,
    /// The host doesn't open the file, or has no locks on it.
    Failed,
}

/// A file that can be locked without waiting.
pub trait Lockable {
    /// Locks it, unless another opening of the file holds it.
    fn lock_at_once(&self) -> Result<(), TryLockError>;
}

impl Lockable for File {
    fn lock_at_once(&self) -> Result<(), TryLockError> {
        self.try_lock()
    }
}

/// A file that is held until this value goes.
#[derive(Drop)]
pub struct FileLock<F: OpenFile + Drop> {
    // it is kept open, since the lock goes with the opening
    file: F,
}

impl<F: OpenFile + Drop> FileLock<F> {
    /// The length of the file that is held, in bytes.
    pub fn len(&self) -> Result<u64, LockRefusal> {
        match self.file.metadata() {
            Ok(told) => Ok(told.len()),
            Err(_) => Err(LockRefusal::Failed),
        }
    }
}

/// Whether the file still stands at its path: another may have taken its place since it was opened.
fn stands_at<R: Files>(rt: &R, path: &str, file: &R::File) -> bool {
    match (file.metadata(), fs::metadata(rt, path)) {
        (Ok(held), Ok(named)) => held.dev() == named.dev() && held.ino() == named.ino(),
        _ => false,
    }
}

/// Holds the file of a path, which is made where it is absent. It doesn't wait: where another holds the file, or others put
/// one file after another in its place, that is `Busy`, and nothing changed.
pub fn hold<R: Files>(rt: &R, path: &str) -> Result<FileLock<R::File>, LockRefusal>
where
    R::File: Lockable + Drop,
{
    for _ in 0..OPENINGS {
        let mut options = OpenOptions::new();
        let Ok(file) = options.read(true).write(true).create(true).open(rt, path) else {
            return Err(LockRefusal::Failed);
        };
        match file.lock_at_once() {
            Ok(()) => {}
            Err(TryLockError::WouldBlock) => return Err(LockRefusal::Busy),
            Err(TryLockError::Error(_)) => return Err(LockRefusal::Failed),
        }
        if stands_at(rt, path, &file) {
            return Ok(FileLock { file });
        }
    }
    Err(LockRefusal::Busy)
}
