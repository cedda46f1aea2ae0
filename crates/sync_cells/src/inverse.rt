ghost use Rattle.std.specs.Prelude.{◌≡◌, ◌+◌, ◌-◌, IfOk};
ghost use Rattle.sync_cells.specs.declared.edit.Former.TheVariants as formers;
ghost use Rattle.sync_cells.specs.Undoing.{inverse_at};

use super::content::Content;
use super::edit::{Edit, Former};
use sync_base::{Between, Inside, Instr, NoMemory, Value as Held};

/// The edit that brings back what an instruction changed in a cell, from what it took out; none where nothing changed.
pub fn inverse_of(instr: &Instr, former: Former) -> Result<Option<Edit>, NoMemory>
    ensures { IfOk result (λ edit. edit ≡ inverse_at instr.now former) }
{
    match former {
        Former::Value(value) => value_back(instr, value),
        Former::Binding(value) => binding_back(instr, value),
        Former::Content(content) => content_back(instr, content),
        Former::Changed(changed) => member_back(instr, changed),
        Former::Nothing => nothing_back(instr),
    }
}

fn value_back(instr: &Instr, value: Held) -> Result<Option<Edit>, NoMemory>
    ensures { IfOk result (λ edit. edit ≡ inverse_at instr.now (formers.Value value)) }
{
    match instr {
        Instr::Update(_) | Instr::AddInteger(_) => Ok(Some(Edit::Set(value))),
        Instr::ListUpdate(i) => Ok(Some(Edit::Replace(i.spot, value))),
        Instr::ListErase(i) => Ok(Some(Edit::Insert(closed(i.spot)?, value))),
        _ => nothing_back(instr),
    }
}

fn binding_back(instr: &Instr, value: Option<Held>) -> Result<Option<Edit>, NoMemory>
    ensures { IfOk result (λ edit. edit ≡ inverse_at instr.now (formers.Binding value)) }
{
    match instr {
        Instr::DictUpdate(i) => Ok(Some(Edit::Bind(i.at.copy()?, value))),
        _ => nothing_back(instr),
    }
}

fn content_back(instr: &Instr, content: Content) -> Result<Option<Edit>, NoMemory>
    ensures { IfOk result (λ edit. edit ≡ inverse_at instr.now (formers.Content content)) }
{
    match instr {
        Instr::Clear(_) => Ok(Some(Edit::Restore(content))),
        _ => nothing_back(instr),
    }
}

fn member_back(instr: &Instr, changed: bool) -> Result<Option<Edit>, NoMemory>
    ensures { IfOk result (λ edit. edit ≡ inverse_at instr.now (formers.Changed changed)) }
{
    match instr {
        Instr::SetInsert(i) if changed => Ok(Some(Edit::Exclude(i.value.copy()?))),
        Instr::SetErase(i) if changed => Ok(Some(Edit::Include(i.value.copy()?))),
        _ => nothing_back(instr),
    }
}

/// The same where nothing was taken out: an insertion alone has an edit that brings back what was.
fn nothing_back(instr: &Instr) -> Result<Option<Edit>, NoMemory>
    ensures { IfOk result (λ edit. edit ≡ inverse_at instr.now formers.Nothing) }
{
    match instr {
        Instr::ListInsert(i) => Ok(Some(Edit::Remove(opened(i.spot)?))),
        _ => Ok(None),
    }
}

/// The element that an insertion there has put in.
fn opened(spot: Between) -> Result<Inside, NoMemory>
    ensures { IfOk result (λ s. s ≡ record { place = spot.place; prior = spot.prior + 1 }) }
{
    let Some(prior) = spot.prior().checked_add(1) else {
        return Err(NoMemory);
    };
    match Inside::new(spot.place(), prior) {
        Ok(inside) => Ok(inside),
        Err(_) => Err(NoMemory),
    }
}

/// The gap that a removal there has left.
fn closed(spot: Inside) -> Result<Between, NoMemory>
    ensures { IfOk result (λ s. s ≡ record { place = spot.place; prior = spot.prior - 1 }) }
{
    let Some(prior) = spot.prior().checked_sub(1) else {
        return Err(NoMemory);
    };
    match Between::new(spot.place(), prior) {
        Ok(between) => Ok(between),
        Err(_) => Err(NoMemory),
    }
}
