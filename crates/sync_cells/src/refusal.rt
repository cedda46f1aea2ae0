/// The cell has another shape. It is as it was.
#[derive(Clone, Copy, Debug, PartialEq, Eq)]
pub struct WrongShape;

/// Why a cell isn't changed. It is as it was.
#[derive(Clone, Copy, Debug, PartialEq, Eq)]
pub enum CellRefusal {
    WrongShape,
    WrongKind,
    BadPrior,
    NoMemory,
}
