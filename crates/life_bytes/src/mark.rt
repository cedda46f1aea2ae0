use crate::life::Life;

/// A number and the life of its record, which tell the record and everything before it. Where there is none, the number is 0
/// and the life 16 zero bytes.
#[derive(Clone, Copy)]
pub struct Mark {
    pub number: u32,
    pub life: Life,
}
