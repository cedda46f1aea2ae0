use thiserror::Error;

/// Why a line was not read: `BadLine` where it is no form, `NoMemory` where memory ran out.
#[derive(Clone, Copy, Debug, PartialEq, Eq, Error)]
pub enum LineRefusal {
    #[error("the line has none of the known forms")]
    BadLine,
    #[error("memory ran out")]
    NoMemory,
}
