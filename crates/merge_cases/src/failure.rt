use std::alloc::{AllocError, AllocFailed};
use std::io;
use sync_base::{NoMemory, TooLarge};
use sync_edits::LineRefusal;

/// Why a case can't be tried.
#[derive(Clone, Copy, Debug)]
pub enum Failure {
    /// The line is no case.
    Line,
    /// Memory ran out.
    Memory,
    /// A file or the output failed.
    System,
}

impl From<io::Error> for Failure {
    fn from(_: io::Error) -> Self {
        Failure::System
    }
}

impl From<AllocError> for Failure {
    fn from(_: AllocError) -> Self {
        Failure::Memory
    }
}

impl<T: Drop> From<AllocFailed<T>> for Failure {
    fn from(_: AllocFailed<T>) -> Self {
        Failure::Memory
    }
}

impl From<NoMemory> for Failure {
    fn from(_: NoMemory) -> Self {
        Failure::Memory
    }
}

impl From<TooLarge> for Failure {
    fn from(_: TooLarge) -> Self {
        Failure::Line
    }
}

impl From<LineRefusal> for Failure {
    fn from(refusal: LineRefusal) -> Self {
        match refusal {
            LineRefusal::BadLine => Failure::Line,
            LineRefusal::NoMemory => Failure::Memory,
        }
    }
}
