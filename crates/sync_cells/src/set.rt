ghost use Rattle.std.specs.Prelude.{◌≡◌, not, Some, None, IfOk, IfErr, OnOk, OnErr};
ghost use Rattle.std.specs.FinSet.{contains, insert};
ghost use Rattle.sync_base.specs.Effects.{Include, Exclude};
ghost use Rattle.sync_base.specs.After.{edited};
ghost use Rattle.sync_cells.specs.Refusals.{shape_refusal, answer_of, IsRefusedBy, cause_of};
ghost use Rattle.sync_cells.specs.Lists.{has_member, members};

use super::cell::Cell;
use super::content::Content;
use super::refusal::CellRefusal;
use std::collections::BTreeSet;
use sync_base::Value as Held;

impl Cell {
    /// Makes a value a member. `WrongShape` comes exactly where the cell isn't a set; and `NoMemory`.
    pub fn set_insert(&mut self, value: Held) -> Result<(), CellRefusal>
        ensures ok { OnOk result (self.new ≡ edited (Include value) self.old) }
        ensures unchanged { OnErr result (self.new ≡ self.old) }
        ensures refused { IsRefusedBy (shape_refusal (Include value) self.old) result }
    {
        let _ = self.set_add(value)?;
        Ok(())
    }

    /// `set_insert`, which says whether the value is new.
    pub(crate) fn set_add(&mut self, value: Held) -> Result<bool, CellRefusal>
        ensures ok { IfOk result (λ added. (added ≡ not (has_member self.old value)) × (self.new ≡ edited (Include value) self.old) × (shape_refusal (Include value) self.old ≡ None)) }
        ensures unchanged { OnErr result (self.new ≡ self.old) }
        ensures refused { IfErr result (λ e. shape_refusal (Include value) self.old ≡ cause_of e) }
    {
        let Content::Set(set) = &mut self.content else {
            return Err(CellRefusal::WrongShape);
        };
        include(set, value)
    }

    /// Makes a value no member. `WrongShape` comes exactly where the cell isn't a set. It takes no memory.
    pub fn set_erase(&mut self, value: &Held) -> Result<(), CellRefusal>
        ensures ok { OnOk result (self.new ≡ edited (Exclude value.now) self.old) }
        ensures unchanged { OnErr result (self.new ≡ self.old) }
        ensures answer { result ≡ answer_of (shape_refusal (Exclude value.now) self.old) }
    {
        let _ = self.set_remove(value)?;
        Ok(())
    }

    /// `set_erase`, which says whether the value was a member.
    pub(crate) fn set_remove(&mut self, value: &Held) -> Result<bool, CellRefusal>
        ensures ok { IfOk result (λ removed. (removed ≡ has_member self.old value.now) × (self.new ≡ edited (Exclude value.now) self.old) × (shape_refusal (Exclude value.now) self.old ≡ None)) }
        ensures unchanged { OnErr result (self.new ≡ self.old) }
        ensures refused { IfErr result (λ e. shape_refusal (Exclude value.now) self.old ≡ Some e) }
    {
        let Content::Set(set) = &mut self.content else {
            return Err(CellRefusal::WrongShape);
        };
        Ok(set.remove(value))
    }
}

fn include(set: &mut BTreeSet<Held>, value: Held) -> Result<bool, CellRefusal>
    ensures ok { IfOk result (λ added. (added ≡ not (contains (members set.old) value)) × (members set.new ≡ insert (members set.old) value)) }
    ensures unchanged { OnErr result (members set.new ≡ members set.old) }
    ensures refused { IfErr result (λ e. e ≡ CellRefusal.NoMemory) }
{
    match set.insert(value) {
        Ok(added) => Ok(added),
        Err(_) => Err(CellRefusal::NoMemory),
    }
}
