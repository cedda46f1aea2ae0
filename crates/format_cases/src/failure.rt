use std::alloc::{AllocError, AllocFailed};
use std::io;

/// Why a case can't be tried.
#[derive(Clone, Copy, Debug)]
pub enum Failure {
    /// Its line has none of the forms.
    Line,
    /// Memory ran out.
    Memory,
    /// A file isn't there, or nothing can be printed.
    System,
}

impl From<io::Error> for Failure {
    fn from(_: io::Error) -> Self {
        Failure::System
    }
}

impl From<AllocError> for Failure {
    fn from(_: AllocError) -> Self {
        Failure::Memory
    }
}

impl<T: Drop> From<AllocFailed<T>> for Failure {
    fn from(_: AllocFailed<T>) -> Self {
        Failure::Memory
    }
}
