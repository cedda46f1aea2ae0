use list_places::ListAction;
use sync_base::Stamp;

/// So many entries from a place on, each of one list instruction or of none; and what a change that is one instruction of that
/// list does, and its stamp, as it came to them.
#[derive(Clone, Copy)]
pub(crate) struct Across {
    pub(crate) start: usize,
    pub(crate) count: usize,
    pub(crate) action: ListAction,
    pub(crate) stamp: Stamp,
}
