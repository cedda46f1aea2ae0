ghost use Rattle.std.specs.Prelude.{◌≡◌, Some, IfOk, OnOk};
ghost use Rattle.sync_base.specs.Effects.{effect_of};
ghost use Rattle.sync_base.specs.Objects.{object_of};
ghost use Rattle.sync_base.specs.Checks.{act, act_all};
ghost use Rattle.sync_reset.specs.Parts.{IsPartOf, IsAlike, IsAlikeFor, AreAlikeFor, StaysAlike};

use std::alloc::Global;
use sync_base::{Changeset, Instr, Key, MOST_PAYLOAD, Name, NoMemory};
use sync_snapshot::{object_instrs, schema_instrs};
use sync_store::Store;

/// The tables of a store, with those of its objects that a change names.
pub(crate) fn part_of(
    alloc: Global,
    objects: &Store,
    changes: &Changeset,
) -> Result<Store, NoMemory>
    ensures tables { IfOk result (λ part. part.tables ≡ objects.now.tables) }
    ensures objects { IfOk result (λ part. AreAlikeFor part objects.now changes.now.instrs) }
{
    let mut part = tables_of(alloc, objects)?;
    for instr in changes.instrs() {
        bring_named(alloc, &mut part, objects, instr)?;
    }
    Ok(part)
}

/// The tables of a store, without objects.
fn tables_of(alloc: Global, objects: &Store) -> Result<Store, NoMemory>
    ensures { IfOk result (λ part. IsPartOf part objects.now) }
{
    objects.keeps_its_limits();
    let mut part = Store::new(alloc)?;
    apply_all(&mut part, schema_instrs(alloc, objects)?)?;
    Ok(part)
}

/// Brings the object that an instruction names, if it names one.
fn bring_named(
    alloc: Global,
    part: &mut Store,
    objects: &Store,
    instr: &Instr,
) -> Result<(), NoMemory>
    requires part { IsPartOf part.old objects.now }
    ensures part { OnOk result (IsPartOf part.new objects.now) }
    ensures brought { OnOk result (IsAlikeFor part.new objects.now (object_of (effect_of instr.now))) }
    ensures others { OnOk result (StaysAlike part.old part.new objects.now) }
{
    match instr {
        Instr::AddTable(_) => Ok(()),
        Instr::AddColumn(_) => Ok(()),
        Instr::CreateObject(i) => bring(alloc, part, objects, &i.table, &i.key),
        Instr::EraseObject(i) => bring(alloc, part, objects, &i.table, &i.key),
        Instr::Update(i) => bring(alloc, part, objects, &i.cell.table, &i.cell.key),
        Instr::AddInteger(i) => bring(alloc, part, objects, &i.cell.table, &i.cell.key),
        Instr::ListUpdate(i) => bring(alloc, part, objects, &i.cell.table, &i.cell.key),
        Instr::ListInsert(i) => bring(alloc, part, objects, &i.cell.table, &i.cell.key),
        Instr::ListErase(i) => bring(alloc, part, objects, &i.cell.table, &i.cell.key),
        Instr::SetInsert(i) => bring(alloc, part, objects, &i.cell.table, &i.cell.key),
        Instr::SetErase(i) => bring(alloc, part, objects, &i.cell.table, &i.cell.key),
        Instr::DictUpdate(i) => bring(alloc, part, objects, &i.cell.table, &i.cell.key),
        Instr::Clear(i) => bring(alloc, part, objects, &i.cell.table, &i.cell.key),
    }
}

/// Brings an object, if it stands and isn't there yet.
fn bring(
    alloc: Global,
    part: &mut Store,
    objects: &Store,
    table: &Name,
    key: &Key,
) -> Result<(), NoMemory>
    requires part { IsPartOf part.old objects.now }
    ensures part { OnOk result (IsPartOf part.new objects.now) }
    ensures brought { OnOk result (IsAlike part.new objects.now (table.now, key.now)) }
    ensures others { OnOk result (StaysAlike part.old part.new objects.now) }
{
    if part.has(table, key) {
        return Ok(());
    }
    if !objects.has(table, key) {
        return Ok(());
    }
    objects.keeps_its_limits();
    let made = object_instrs(alloc, objects, table, key)?;
    apply_all(part, made)
}

/// Lets instructions act one after the other.
fn apply_all(part: &mut Store, instrs: Vec<Instr>) -> Result<(), NoMemory>
    ensures { OnOk result (act_all instrs.items part.old ≡ Some part.new) }
{
    for instr in instrs {
        apply(part, instr)?;
    }
    Ok(())
}

/// Lets an instruction act that is known to.
pub(crate) fn apply(part: &mut Store, instr: Instr) -> Result<(), NoMemory>
    ensures { OnOk result (act instr part.old ≡ Some part.new) }
{
    // No instruction of a store or a changeset carries more.
    if instr.payload() > MOST_PAYLOAD {
        drop(instr);
        return Err(NoMemory);
    }
    match part.apply(instr) {
        Ok(()) => Ok(()),
        Err(_) => Err(NoMemory),
    }
}
