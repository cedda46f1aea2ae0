// What was asked of a gathered disk since its last landing.

/// Bytes to be written at a place, or a sync.
#[derive(Drop)]
pub enum Asked {
    Write(u64, Vec<u8>),
    Sync,
}
