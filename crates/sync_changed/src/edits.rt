ghost use Rattle.std.specs.Prelude.{◌≡◌, ◌-◌, ◌++◌, ◌∷◌, [], ℕ, List, true, false, map, IfOk, OnOk};
ghost use Rattle.sync_base.specs.Effects.{CellPath, effect_of};
ghost use Rattle.sync_base.specs.Footprints.{Part, SameAt};
ghost use Rattle.sync_exchange.specs.Profile.{the_profile};
ghost use Rattle.sync_model.specs.Clients as model;
ghost use Rattle.sync_changed.specs.Ends.{SameEndsAt, all_spare};
ghost use Rattle.sync_changed.specs.Places.{is_told, place_of, places_in, told_place};

use super::place::Place;
use std::alloc::Global;
use sync_base::{Between, CellName, Inside, Instr, Key, Name, NoMemory};

/// What a transaction of these instructions may change of a client's objects: a place for each, in order. All else is as it
/// was, once it is committed or refused: of a list the elements before each place that is told of it, and behind each.
pub fn changed_by_edits(alloc: Global, edits: &[Instr]) -> Result<Vec<Place>, NoMemory>
    ensures places { IfOk result (λ places. places.items ≡ places_in true edits.now) }
    ensures told { IfOk result (λ places. (records : List model.ClientRecord) (ms : ℕ) (x : Part) → is_told places.items x ≡ false
        → SameAt (model.client_of the_profile (records ++ (model.commit the_profile (model.client_of the_profile records) ms edits.now).records)).objects (model.client_of the_profile records).objects x) }
    ensures ends { IfOk result (λ places. (records : List model.ClientRecord) (ms front back : ℕ) (list : CellPath) → all_spare front back list places.items ≡ true
        → SameEndsAt front back list (model.client_of the_profile (records ++ (model.commit the_profile (model.client_of the_profile records) ms edits.now).records)).objects (model.client_of the_profile records).objects) }
{
    places_of(alloc, edits)
}

fn places_of(alloc: Global, edits: &[Instr]) -> Result<Vec<Place>, NoMemory>
    ensures { IfOk result (λ places. places.items ≡ places_in true edits.now) }
{
    let mut places = Vec::new(alloc);
    put_places(&mut places, edits, true)?;
    Ok(places)
}

/// Puts the places that instructions may change; `exact`: of lists the elements.
pub(crate) fn put_places(
    places: &mut Vec<Place>,
    edits: &[Instr],
    exact: bool,
) -> Result<(), NoMemory>
    ensures { OnOk result (places.new.items ≡ places.old.items ++ places_in exact edits.now) }
{
    for instr in edits {
        let place = told_place(instr, exact)?;
        put(places, place)?;
    }
    Ok(())
}

/// The place that an instruction may change; `exact`: of a list the element.
fn told_place(instr: &Instr, exact: bool) -> Result<Place, NoMemory>
    ensures { IfOk result (λ place. place ≡ told_place exact (effect_of instr.now)) }
{
    if !exact {
        return place_of(instr);
    }
    match instr {
        Instr::ListUpdate(i) => element(&i.cell, i.spot),
        Instr::ListInsert(i) => gap(&i.cell, i.spot),
        Instr::ListErase(i) => element(&i.cell, i.spot),
        Instr::AddTable(_)
        | Instr::AddColumn(_)
        | Instr::CreateObject(_)
        | Instr::EraseObject(_)
        | Instr::Update(_)
        | Instr::AddInteger(_)
        | Instr::SetInsert(_)
        | Instr::SetErase(_)
        | Instr::DictUpdate(_)
        | Instr::Clear(_) => place_of(instr),
    }
}

/// The table, column, object or cell that an instruction may change.
fn place_of(instr: &Instr) -> Result<Place, NoMemory>
    ensures { IfOk result (λ place. place ≡ place_of (effect_of instr.now)) }
{
    match instr {
        Instr::AddTable(i) => Ok(Place::Table(i.table.copy()?)),
        Instr::AddColumn(i) => Ok(Place::Column {
            table: i.table.copy()?,
            column: i.column.copy()?,
        }),
        Instr::CreateObject(i) => object(&i.table, &i.key),
        Instr::EraseObject(i) => object(&i.table, &i.key),
        Instr::Update(i) => cell(&i.cell),
        Instr::AddInteger(i) => cell(&i.cell),
        Instr::ListUpdate(i) => cell(&i.cell),
        Instr::ListInsert(i) => cell(&i.cell),
        Instr::ListErase(i) => cell(&i.cell),
        Instr::SetInsert(i) => cell(&i.cell),
        Instr::SetErase(i) => cell(&i.cell),
        Instr::DictUpdate(i) => cell(&i.cell),
        Instr::Clear(i) => cell(&i.cell),
    }
}

fn object(table: &Name, key: &Key) -> Result<Place, NoMemory>
    ensures { IfOk result (λ place. place ≡ Place.Object table.now key.now) }
{
    Ok(Place::Object {
        table: table.copy()?,
        key: key.copy()?,
    })
}

fn cell(name: &CellName) -> Result<Place, NoMemory>
    ensures { IfOk result (λ place. place ≡ Place.Cell name.now) }
{
    Ok(Place::Cell(name.copy()?))
}

/// An element that is replaced or removed.
fn element(name: &CellName, spot: Inside) -> Result<Place, NoMemory>
    ensures { IfOk result (λ place. place ≡ Place.Elements name.now spot.place (spot.prior - spot.place - 1)) }
{
    let front = spot.place();
    Ok(Place::Elements {
        cell: name.copy()?,
        front,
        back: spot.prior() - front - 1,
    })
}

/// A gap into which an element is put.
fn gap(name: &CellName, spot: Between) -> Result<Place, NoMemory>
    ensures { IfOk result (λ place. place ≡ Place.Elements name.now spot.place (spot.prior - spot.place)) }
{
    let front = spot.place();
    Ok(Place::Elements {
        cell: name.copy()?,
        front,
        back: spot.prior() - front,
    })
}

/// Puts an item at the end of a list.
fn put<T: Drop>(list: &mut Vec<T>, item: T) -> Result<(), NoMemory>
    ensures { OnOk result (list.new.items ≡ list.old.items ++ item ∷ []) }
{
    match list.push(item) {
        Ok(()) => Ok(()),
        Err(_) => Err(NoMemory),
    }
}
