ghost use Rattle.std.specs.Prelude.{◌≡◌, Some, None, IfOk, IfErr, OnOk, OnErr};
ghost use Rattle.std.specs.FinMap as map;
ghost use Rattle.sync_base.specs.Effects.{Bind};
ghost use Rattle.sync_base.specs.After.{edited, bound};
ghost use Rattle.sync_cells.specs.Refusals.{shape_refusal, IsRefusedBy, cause_of};
ghost use Rattle.sync_cells.specs.Lists.{binding_at, bindings};

use super::cell::Cell;
use super::content::Content;
use super::refusal::CellRefusal;
use std::collections::BTreeMap;
use sync_base::{KeyText, Value as Held};

impl Cell {
    /// Binds a text key to a value, or unbinds it where there is none. `WrongShape` comes exactly where the cell isn't a
    /// dictionary; and `NoMemory`.
    pub fn dict_update(&mut self, at: KeyText, value: Option<Held>) -> Result<(), CellRefusal>
        ensures ok { OnOk result (self.new ≡ edited (Bind at value) self.old) }
        ensures unchanged { OnErr result (self.new ≡ self.old) }
        ensures refused { IsRefusedBy (shape_refusal (Bind at value) self.old) result }
    {
        let _ = self.dict_bind(at, value)?;
        Ok(())
    }

    /// `dict_update`, which hands the binding before back.
    pub(crate) fn dict_bind(
        &mut self,
        at: KeyText,
        value: Option<Held>,
    ) -> Result<Option<Held>, CellRefusal>
        ensures ok { IfOk result (λ before. (before ≡ binding_at self.old at) × (self.new ≡ edited (Bind at value) self.old) × (shape_refusal (Bind at value) self.old ≡ None)) }
        ensures unchanged { OnErr result (self.new ≡ self.old) }
        ensures refused { IfErr result (λ e. shape_refusal (Bind at value) self.old ≡ cause_of e) }
    {
        let Content::Dict(dict) = &mut self.content else {
            return Err(CellRefusal::WrongShape);
        };
        bind(dict, at, value)
    }
}

fn bind(
    dict: &mut BTreeMap<KeyText, Held>,
    at: KeyText,
    value: Option<Held>,
) -> Result<Option<Held>, CellRefusal>
    ensures ok { IfOk result (λ before. (before ≡ map.get (bindings dict.old) at) × (bindings dict.new ≡ bound (bindings dict.old) at value)) }
    ensures unchanged { OnErr result (bindings dict.new ≡ bindings dict.old) }
    ensures refused { IfErr result (λ e. e ≡ CellRefusal.NoMemory) }
{
    let Some(value) = value else {
        return Ok(dict.remove(&at));
    };
    match dict.insert(at, value) {
        Ok(before) => Ok(before),
        Err(_) => Err(CellRefusal::NoMemory),
    }
}
