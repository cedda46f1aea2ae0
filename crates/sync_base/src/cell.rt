ghost use Rattle.std.specs.Prelude.{◌≡◌};
ghost use Rattle.std.specs.Option.{option_map};
ghost use Rattle.sync_base.specs.Effects.{CellPath, effect_of, path_of};
ghost use Rattle.sync_base.specs.Objects.{cell_in};

use sync_data::{CellName, Instr};

/// The cell that an instruction changes; none for one of an object or of the schema.
#[inline(always)]
pub fn cell_of(instr: &Instr) -> Option<&CellName>
    ensures { option_map {U = CellPath} (λ cell. path_of cell.now) result ≡ cell_in (effect_of instr.now) }
{
    match instr {
        Instr::AddTable(_) => None,
        Instr::AddColumn(_) => None,
        Instr::CreateObject(_) => None,
        Instr::EraseObject(_) => None,
        Instr::Update(update) => Some(&update.cell),
        Instr::AddInteger(add) => Some(&add.cell),
        Instr::ListUpdate(update) => Some(&update.cell),
        Instr::ListInsert(insert) => Some(&insert.cell),
        Instr::ListErase(erase) => Some(&erase.cell),
        Instr::SetInsert(insert) => Some(&insert.cell),
        Instr::SetErase(erase) => Some(&erase.cell),
        Instr::DictUpdate(update) => Some(&update.cell),
        Instr::Clear(clear) => Some(&clear.cell),
    }
}
