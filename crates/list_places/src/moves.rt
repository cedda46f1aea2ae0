ghost use Rattle.std.specs.Prelude.{◌≡◌, ◌<◌, IfOk, IfSome, IsTrue};
ghost use Rattle.std.specs.Option.{option_map};
ghost use Rattle.sync_data.specs.declared.value.Value.{Value};
ghost use Rattle.sync_data.specs.declared.instr.CellName.{CellName};
ghost use Rattle.sync_base.specs.Effects.{CellPath, path_of};
ghost use Rattle.sync_base.specs.Rules.{top};
ghost use Rattle.list_places.specs.Places.{Within};
ghost use Rattle.list_places.specs.Moves.{acting, instr_at, kind_of, action_at, action_in, first_cell, moved, moved_first, moved_changes, shown_changes, Move};

use super::places::{Does, length_after, place_after};
use std::alloc::Global;
use std::mem;
use sync_base::{Between, CellName, Changeset, Inside, Instr, NoMemory, cell_of, same_cell};

/// What an instruction of a list does, and where: in a gap of the list, or at an element.
#[derive(Clone, Copy)]
pub enum ListAction {
    Insert(Between),
    Erase(Inside),
    Update(Inside),
}

/// What two instructions of a list do after they met.
#[derive(Clone, Copy)]
pub struct Moves {
    pub left: ListAction,
    pub right: ListAction,
}

#[inline(always)]
fn parts(action: ListAction) -> (Does, u32, u32)
    ensures is { (c : CellName) (v : Value) → acting c v action ≡ instr_at c v result.0 result.1 result.2 }
    ensures kind { kind_of action ≡ result.0 }
    ensures within { Within result.0 result.1 result.2 }
{
    match action {
        ListAction::Insert(gap) => (Does::Inserts, gap.place(), gap.prior()),
        ListAction::Erase(element) => (Does::Erases, element.place(), element.prior()),
        ListAction::Update(element) => (Does::Updates, element.place(), element.prior()),
    }
}

#[inline(always)]
fn action_of(does: Does, place: u32, prior: u32) -> ListAction
    requires { Within does place prior }
    ensures is { (c : CellName) (v : Value) → acting c v result ≡ instr_at c v does place prior }
    ensures kind { kind_of result ≡ does }
{
    match does {
        Does::Inserts => ListAction::Insert(Between::new(place, prior).unwrap()),
        Does::Erases => ListAction::Erase(Inside::new(place, prior).unwrap()),
        Does::Updates => ListAction::Update(Inside::new(place, prior).unwrap()),
    }
}

/// What two instructions of one list do after they met, where both stay. None for all others, and where they can't be merged.
#[inline(always)]
pub fn both_move(left: ListAction, right: ListAction, left_later: bool) -> Option<Moves>
    ensures { IfSome result (Move left right left_later) }
{
    let (does, place, length) = parts(left);
    let (other_does, other_place, other_length) = parts(right);
    if length != other_length || length >= u32::MAX {
        return None;
    }
    let own = place_after(left_later, does, place, other_does, other_place)?;
    let other = place_after(!left_later, other_does, other_place, does, place)?;
    Some(Moves {
        left: action_of(does, own, length_after(other_does, length)),
        right: action_of(other_does, other, length_after(does, length)),
    })
}

/// What an instruction does in its list, where it is one of a list.
pub fn action_at(instr: &Instr) -> Option<ListAction>
    ensures { result ≡ action_at instr.now }
{
    match instr {
        Instr::ListInsert(insert) => Some(ListAction::Insert(insert.spot)),
        Instr::ListErase(erase) => Some(ListAction::Erase(erase.spot)),
        Instr::ListUpdate(update) => Some(ListAction::Update(update.spot)),
        _ => None,
    }
}

/// What a changeset of one list instruction does; none for all others.
pub fn action_in(changes: &Changeset) -> Option<ListAction>
    ensures { result ≡ action_in changes.now.instrs }
{
    match changes.instrs() {
        [instr] => action_at(instr),
        _ => None,
    }
}

fn first_cell(changes: &Changeset) -> Option<&CellName>
    ensures { option_map {U = CellPath} (λ cell. path_of cell.now) result ≡ first_cell changes.now.instrs }
{
    match changes.instrs() {
        [] => None,
        [first, ..] => cell_of(first),
    }
}

/// Whether the first instructions of two changesets change one cell.
pub fn same_first_cell(left: &Changeset, right: &Changeset) -> bool
    ensures { IsTrue result → first_cell left.now.instrs ≡ first_cell right.now.instrs }
{
    match (first_cell(left), first_cell(right)) {
        (Some(left), Some(right)) => same_cell(left, right),
        _ => false,
    }
}

/// A copy of a changeset with its first instruction doing this, where an action is told and that does it elsewhere.
pub fn shown(changes: &Changeset, action: Option<ListAction>) -> Result<Changeset, NoMemory>
    ensures { IfOk result (λ made. made ≡ shown_changes action changes.now) }
{
    let copy = changes.copy()?;
    match action {
        Some(action) => Ok(moved_to(copy, action)),
        None => Ok(copy),
    }
}

/// The changeset with its first instruction doing this, where that does it elsewhere. It takes no memory.
pub fn moved_to(changes: Changeset, action: ListAction) -> Changeset
    ensures { result ≡ moved_changes action changes }
{
    let ms = changes.ms();
    let mut instrs = changes.into_instrs();
    move_first(&mut instrs, action);
    Changeset::checked(ms, instrs).unwrap()
}

/// The changeset where it is, with its first instruction doing this, where an action is told. It takes no memory.
pub fn write(alloc: Global, changes: &mut Changeset, action: Option<ListAction>)
    ensures { changes.new ≡ shown_changes action changes.old }
{
    if let Some(action) = action {
        let nothing = Changeset::checked(changes.ms(), Vec::new(alloc)).unwrap();
        let written = mem::replace(changes, nothing);
        *changes = moved_to(written, action);
    }
}

fn move_first(instrs: &mut Vec<Instr>, action: ListAction)
    ensures { instrs.new.items ≡ moved_first action instrs.old.items }
{
    if !instrs.is_empty() {
        put_action(&mut instrs[0], action);
    }
}

/// Gives a list instruction what it does now, where that is of its kind. Any other stays as it is.
pub fn put_action(instr: &mut Instr, action: ListAction)
    ensures { instr.new ≡ moved action instr.old }
{
    match (instr, action) {
        (Instr::ListInsert(insert), ListAction::Insert(gap)) => insert.spot = gap,
        (Instr::ListErase(erase), ListAction::Erase(element)) => erase.spot = element,
        (Instr::ListUpdate(update), ListAction::Update(element)) => update.spot = element,
        _ => {}
    }
}
