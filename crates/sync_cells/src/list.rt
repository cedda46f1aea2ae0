ghost use Rattle.std.specs.Prelude.{◌≡◌, ◌<◌, ◌≤◌, Some, None, IfOk, IfErr, OnOk, OnErr};
ghost use Rattle.sync_base.specs.Effects.{Replace, Insert, Remove};
ghost use Rattle.sync_base.specs.After.{edited};
ghost use Rattle.sync_cells.specs.Refusals.{list_refusal, answer_of, IsRefusedBy};
ghost use Rattle.sync_cells.specs.Lists.{HoldsAt};

use super::cell::Cell;
use super::content::Content;
use super::element::Element;
use super::refusal::CellRefusal;
use sync_base::{Between, Inside, Value as Held};

impl Cell {
    /// Replaces an element. `WrongShape` comes exactly where the cell isn't a list, then `BadPrior` exactly where `prior`
    /// isn't its length. It takes no memory.
    pub fn list_update(&mut self, spot: Inside, value: Held) -> Result<(), CellRefusal>
        ensures ok { OnOk result (self.new ≡ edited (Replace spot value) self.old) }
        ensures unchanged { OnErr result (self.new ≡ self.old) }
        ensures answer { result ≡ answer_of (list_refusal (Replace spot value) self.old) }
    {
        let _ = self.list_replace(spot, value)?;
        Ok(())
    }

    /// `list_update`, which hands the element before back.
    pub(crate) fn list_replace(&mut self, spot: Inside, value: Held) -> Result<Held, CellRefusal>
        ensures ok { IfOk result (λ before. HoldsAt self.old spot.place before × (self.new ≡ edited (Replace spot value) self.old) × (list_refusal (Replace spot value) self.old ≡ None)) }
        ensures placed { OnOk result (spot.place < spot.prior) }
        ensures unchanged { OnErr result (self.new ≡ self.old) }
        ensures refused { IfErr result (λ e. list_refusal (Replace spot value) self.old ≡ Some e) }
    {
        match &mut self.content {
            Content::List(list) => {
                if list.len() != spot.prior() as usize {
                    return Err(CellRefusal::BadPrior);
                }
                let before = list.replace(spot.place() as usize, Element::new(value));
                Ok(before.into_value())
            }
            _ => Err(CellRefusal::WrongShape),
        }
    }

    /// Inserts a value before the element at the place, or at the end. Refusals as of `list_update`; and `NoMemory`.
    pub fn list_insert(&mut self, spot: Between, value: Held) -> Result<(), CellRefusal>
        ensures ok { OnOk result (self.new ≡ edited (Insert spot value) self.old) }
        ensures unchanged { OnErr result (self.new ≡ self.old) }
        ensures refused { IsRefusedBy (list_refusal (Insert spot value) self.old) result }
        ensures placed { OnOk result (spot.place ≤ spot.prior) }
    {
        match &mut self.content {
            Content::List(list) => {
                if list.len() != spot.prior() as usize {
                    return Err(CellRefusal::BadPrior);
                }
                match list.insert(spot.place() as usize, Element::new(value)) {
                    Ok(()) => Ok(()),
                    Err(_) => Err(CellRefusal::NoMemory),
                }
            }
            _ => Err(CellRefusal::WrongShape),
        }
    }

    /// Removes an element. Refusals as of `list_update`. It takes no memory.
    pub fn list_erase(&mut self, spot: Inside) -> Result<(), CellRefusal>
        ensures ok { OnOk result (self.new ≡ edited (Remove spot) self.old) }
        ensures unchanged { OnErr result (self.new ≡ self.old) }
        ensures answer { result ≡ answer_of (list_refusal (Remove spot) self.old) }
    {
        let _ = self.list_remove(spot)?;
        Ok(())
    }

    /// `list_erase`, which hands the element back.
    pub(crate) fn list_remove(&mut self, spot: Inside) -> Result<Held, CellRefusal>
        ensures ok { IfOk result (λ before. HoldsAt self.old spot.place before × (self.new ≡ edited (Remove spot) self.old) × (list_refusal (Remove spot) self.old ≡ None)) }
        ensures placed { OnOk result (spot.place < spot.prior) }
        ensures unchanged { OnErr result (self.new ≡ self.old) }
        ensures refused { IfErr result (λ e. list_refusal (Remove spot) self.old ≡ Some e) }
    {
        match &mut self.content {
            Content::List(list) => {
                if list.len() != spot.prior() as usize {
                    return Err(CellRefusal::BadPrior);
                }
                Ok(list.remove(spot.place() as usize).into_value())
            }
            _ => Err(CellRefusal::WrongShape),
        }
    }
}
