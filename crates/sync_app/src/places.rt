ghost use Rattle.std.specs.Prelude.{nat_le, nat_lt, true, Some};
ghost use Rattle.std.specs.Option.{option_copied};
ghost use Rattle.sync_app.specs.Drafts.{length_of};
ghost use Rattle.sync_app.specs.Placing.{Measures, Places, list_break};

use super::refusal::Refusal;
use super::sketch::cell_key;
use super::transaction::Transaction;
use super::wanted::Wanted;
use sync_base::{Between, CellName, Inside, Value};

impl Transaction<'_> {
    /// The gap of a list before that place, for a value that its column takes.
    pub(crate) fn gap(&self, cell: &CellName, place: u32, value: &Value) -> Result<Between, Refusal>
        ensures { let n = length_of self.now cell.now in Places result (nat_le place n) place n (list_break self.now cell.now (Some value.now)) }
    {
        let length = match self.list_length(cell, Some(value)) {
            Ok(length) => length,
            Err(refusal) => return Err(refusal),
        };
        match Between::new(place, length) {
            Ok(spot) => Ok(spot),
            Err(_) => Err(Refusal::OutOfRange { place, length }),
        }
    }

    /// The gap at the end of a list, for a value that its column takes.
    pub(crate) fn end(&self, cell: &CellName, value: &Value) -> Result<Between, Refusal>
        ensures { let n = length_of self.now cell.now in Places result true n n (list_break self.now cell.now (Some value.now)) }
    {
        let length = match self.list_length(cell, Some(value)) {
            Ok(length) => length,
            Err(refusal) => return Err(refusal),
        };
        match Between::new(length, length) {
            Ok(spot) => Ok(spot),
            Err(_) => unreachable!(),
        }
    }

    /// The element of a list at that place, for a value that its column takes, where one is given.
    pub(crate) fn element(
        &self,
        cell: &CellName,
        place: u32,
        value: Option<&Value>,
    ) -> Result<Inside, Refusal>
        ensures { let n = length_of self.now cell.now in Places result (nat_lt place n) place n (list_break self.now cell.now (option_copied value.entry)) }
    {
        let length = match self.list_length(cell, value) {
            Ok(length) => length,
            Err(refusal) => return Err(refusal),
        };
        match Inside::new(place, length) {
            Ok(spot) => Ok(spot),
            Err(_) => Err(Refusal::OutOfRange { place, length }),
        }
    }

    /// How many elements the list of a cell has with the transaction so far, where its column holds lists of such values.
    fn list_length(&self, cell: &CellName, value: Option<&Value>) -> Result<u32, Refusal>
        ensures { Measures result (length_of self.now cell.now) (list_break self.now cell.now (option_copied value.entry)) }
    {
        match self.sketch.check_change(cell, Wanted::List, value, None) {
            Ok(()) => {}
            Err(refusal) => return Err(refusal),
        }
        let Ok(cell) = cell_key(cell) else {
            return Err(Refusal::NoMemory);
        };
        match u32::try_from(self.sketch.size(&cell)) {
            Ok(length) => Ok(length),
            Err(_) => Err(Refusal::ListFull),
        }
    }
}
