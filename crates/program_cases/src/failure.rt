use std::alloc::{AllocError, AllocFailed};
use std::io;
use sync_disk::DiskRefusal;

/// Why the cases can't be tried.
#[derive(Clone, Copy, Debug)]
pub enum Failure {
    /// A file of the data or the output failed, or memory ran out.
    System,
    /// A line of the data is none of its file.
    Data,
}

impl From<io::Error> for Failure {
    fn from(_: io::Error) -> Self {
        Failure::System
    }
}

impl From<AllocError> for Failure {
    fn from(_: AllocError) -> Self {
        Failure::System
    }
}

impl<T: Drop> From<AllocFailed<T>> for Failure {
    fn from(_: AllocFailed<T>) -> Self {
        Failure::System
    }
}

impl From<DiskRefusal> for Failure {
    fn from(_: DiskRefusal) -> Self {
        Failure::System
    }
}

impl From<sync_data::NoMemory> for Failure {
    fn from(_: sync_data::NoMemory) -> Self {
        Failure::System
    }
}

impl From<sync_disk::NoMemory> for Failure {
    fn from(_: sync_disk::NoMemory) -> Self {
        Failure::System
    }
}

/// A number of the data.
pub fn number(text: &str) -> Result<u32, Failure> {
    text.parse::<u32>().ok().ok_or(Failure::Data)
}
