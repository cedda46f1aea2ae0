use crate::life::Life;

/// So many numbers in a row that have one life.
#[derive(Clone, Copy)]
pub struct Run {
    pub count: u32,
    pub life: Life,
}
