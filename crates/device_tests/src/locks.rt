//! The lock on a file of the host.

use crate::files::path_of;
use file_lock::{LockRefusal, hold};
use std::fs;

/// Whether another opening finds the file held as long as a lock on it lives, and free before and afterwards.
fn is_held_once(rt: &HostRuntime, path: &str) -> bool {
    let is_free = hold(rt, path).is_ok();
    let held = hold(rt, path);
    let is_held = held.is_ok() && hold(rt, path).err() == Some(LockRefusal::Busy);
    drop(held);
    is_free && is_held && hold(rt, path).is_ok()
}

/// The same at a path of this process, of which no file is left.
fn holds_once(rt: &HostRuntime) -> bool {
    let Some(path) = path_of(rt, "file_lock") else {
        return false;
    };
    let path = path.as_path().as_str();
    let is_held_once = is_held_once(rt, path);
    fs::remove_file(rt, path).is_ok() && is_held_once
}

pub(crate) fn one_opening_holds_a_file_at_a_time(rt: &HostRuntime) -> bool {
    holds_once(rt) && hold(rt, "no/such/folder/file").err() == Some(LockRefusal::Failed)
}
