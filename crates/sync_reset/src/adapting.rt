ghost use Rattle.std.specs.Prelude.{◌≡◌, IfOk};
ghost use Rattle.sync_base.specs.Effects.{path_of};
ghost use Rattle.sync_base.specs.States.{cell_at};
ghost use Rattle.sync_exchange.specs.Adapting.{adapt, spot_at, spot_in};

use sync_base::{Between, CellName, Instr, ListInsert, NoMemory};
use sync_cells::Content;
use sync_store::Store;

/// An instruction, as far as it can be made to fit the objects: an insertion is put at most at the end of the list that is
/// there, and has its length.
pub(crate) fn adapted(objects: &Store, instr: &Instr) -> Result<Instr, NoMemory>
    ensures { IfOk result (λ fitted. fitted ≡ adapt objects.now instr.now) }
{
    match instr {
        Instr::ListInsert(i) => {
            let spot = fitted(objects, &i.cell, i.spot);
            let cell = i.cell.copy()?;
            let value = i.value.copy()?;
            Ok(Instr::ListInsert(ListInsert { cell, spot, value }))
        }
        _ => instr.copy(),
    }
}

fn fitted(objects: &Store, cell: &CellName, spot: Between) -> Between
    ensures { result ≡ spot_at spot (cell_at objects.now (path_of cell.now).0 cell.now.column) }
{
    let Some(found) = objects.cell(&cell.table, &cell.key, &cell.column) else {
        return spot;
    };
    match found.content() {
        Content::List(list) => within(spot, list.len()),
        _ => spot,
    }
}

/// The spot in a list of that length; no spot lies in one of 2^32 elements and more.
fn within(spot: Between, len: usize) -> Between
    ensures { result ≡ spot_in spot len }
{
    let Ok(prior) = u32::try_from(len) else {
        return spot;
    };
    let place = if spot.place() <= prior {
        spot.place()
    } else {
        prior
    };
    match Between::new(place, prior) {
        Ok(fitted) => fitted,
        Err(_) => unreachable!(),
    }
}
