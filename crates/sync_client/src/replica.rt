use crate::refusal::ClientRefusal;
use std::alloc::Global;
use sync_data::{Id, Ident, NoMemory};
use sync_rebase::PendingList;
use sync_store::Store;
use sync_subset::Subset;

/// What a client keeps in memory of its records.
#[derive(Drop)]
pub struct Replica {
    pub(crate) id: Option<Id>,
    pub(crate) ident: Ident,
    pub(crate) second: bool,
    pub(crate) subset: Option<Subset>,
    pub(crate) floor: Option<u32>,
    pub(crate) cursor: u32,
    pub(crate) count: u32,
    pub(crate) unsent: PendingList,
    pub(crate) objects: Store,
}
