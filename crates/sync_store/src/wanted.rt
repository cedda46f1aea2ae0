/// The shape that a change wants of its column.
#[derive(Clone, Copy)]
pub(crate) enum Wanted {
    One,
    List,
    Set,
    Dict,
    /// A list, a set or a dictionary.
    Collection,
}
