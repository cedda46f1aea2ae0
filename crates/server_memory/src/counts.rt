/// The numbers of an ident: of its last change in the history, or 0; of the base at which that one was made, or 0; and
/// the greatest settled number of its questions, or 0.
#[derive(Clone, Copy, PartialEq, Eq)]
pub struct Counts {
    pub number: u32,
    pub base: u32,
    pub settled: u32,
}
