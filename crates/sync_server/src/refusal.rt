/// Why a server answers no message.
#[derive(Clone, Copy, Debug, PartialEq, Eq)]
pub enum ServerRefusal {
    /// An earlier message was answered by `DiskFault` or `NoMemory`, or its journal was closed.
    Closed,
    /// The disk has failed. The server is closed from then on.
    DiskFault,
    /// Memory ran out. The server is closed from then on.
    NoMemory,
}
