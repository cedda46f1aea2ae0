use sync_base::Listed;
use sync_reset::Dropped;

/// What became of a change of an old client.
#[derive(Drop)]
pub enum Heir {
    /// It is in the history as itself.
    Integrated,
    /// The heir has saved it already.
    Known,
    /// It is saved now, as the heir's transaction of this number, without what was dropped.
    Saved {
        number: u32,
        dropped: Listed<Dropped>,
    },
}
