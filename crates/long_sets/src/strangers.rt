ghost use Rattle.std.specs.Prelude.{◌≡◌, Some, IfSome, IsTrue};
ghost use Rattle.sync_base.specs.Effects.{path_of};
ghost use Rattle.long_sets.specs.Parts.{is_of, other_of, others_of, AllStrangers, Stranger};

use std::alloc::Global;
use sync_base::{CellName, Instr, erases, same_cell};

/// Whether an instruction is one of the list in a cell.
pub(crate) fn is_of(instr: &Instr, cell: &CellName) -> bool
    ensures { result ≡ is_of (path_of cell.now) instr.now }
{
    match instr {
        Instr::ListInsert(insert) => same_cell(&insert.cell, cell),
        Instr::ListErase(erase) => same_cell(&erase.cell, cell),
        Instr::ListUpdate(update) => same_cell(&update.cell, cell),
        _ => false,
    }
}

/// Whether an instruction and any of the list in a cell stay as they are when they meet.
#[tactic(auto, using(crate::proofs::Effects::table_stranger, crate::proofs::Effects::column_stranger, crate::proofs::Effects::create_stranger, crate::proofs::Effects::update_stranger, crate::proofs::Effects::add_stranger, crate::proofs::Effects::include_stranger, crate::proofs::Effects::exclude_stranger, crate::proofs::Effects::bind_stranger))]
fn is_stranger(instr: &Instr, cell: &CellName) -> bool
    ensures { IsTrue result → Stranger (path_of cell.now) (Some instr.now) }
{
    match instr {
        Instr::EraseObject(erase) => !erases(erase, cell),
        Instr::ListInsert(insert) => !same_cell(&insert.cell, cell),
        Instr::ListErase(erase) => !same_cell(&erase.cell, cell),
        Instr::ListUpdate(update) => !same_cell(&update.cell, cell),
        Instr::Clear(clear) => !same_cell(&clear.cell, cell),
        Instr::AddTable(_) => true,
        Instr::AddColumn(_) => true,
        Instr::CreateObject(_) => true,
        Instr::Update(_) => true,
        Instr::AddInteger(_) => true,
        Instr::SetInsert(_) => true,
        Instr::SetErase(_) => true,
        Instr::DictUpdate(_) => true,
    }
}

/// Whether all but those of the list in a cell are strangers to it.
pub(crate) fn are_strangers(slots: &[Option<Instr>], cell: &CellName) -> bool
    ensures { IsTrue result → AllStrangers (path_of cell.now) (others_of (path_of cell.now) slots.now) }
{
    for slot in slots {
        if !stays(slot, cell) {
            return false;
        }
    }
    true
}

fn stays(slot: &Option<Instr>, cell: &CellName) -> bool
    ensures { IsTrue result → Stranger (path_of cell.now) (other_of (path_of cell.now) slot.now) }
{
    match slot {
        None => true,
        Some(instr) => is_of(instr, cell) || is_stranger(instr, cell),
    }
}

/// The slots without the instructions of the list in a cell.
pub(crate) fn without(
    alloc: Global,
    slots: Vec<Option<Instr>>,
    cell: &CellName,
) -> Option<Vec<Option<Instr>>>
    ensures { IfSome result (λ others. others.items ≡ others_of (path_of cell.now) slots.items) }
{
    let mut others = Vec::new(alloc);
    for slot in slots {
        let other = other_of(slot, cell);
        let Ok(()) = others.push(other) else {
            return None;
        };
    }
    Some(others)
}

fn other_of(slot: Option<Instr>, cell: &CellName) -> Option<Instr>
    ensures { result ≡ other_of (path_of cell.now) slot }
{
    let Some(instr) = slot else {
        return None;
    };
    if is_of(&instr, cell) {
        return None;
    }
    Some(instr)
}
