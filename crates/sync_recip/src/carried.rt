ghost use Rattle.std.specs.Prelude.{◌≡◌, ◌≤◌, drop, length, map};
ghost use Rattle.sync_rivals.specs.Lists.{Lists};
ghost use Rattle.sync_recip.specs.Acrossing.{put_across};
ghost use Rattle.sync_recip.specs.Lists.{versions, kept_entry, lists_in};
ghost use Rattle.sync_recip.specs.Carrying.{AllFit, FitsOne, LeftAt, crossed_entries, put_crossed, with_crossed};
ghost use Rattle.sync_recip.specs.Stretches.{from_place};

use super::across::Across;
use super::items::Items;
use super::shared::SharedEntry;
use list_places::ListAction;
use std::marker::Model;
use sync_base::Changeset;
use sync_rivals::RivalIndex;
use sync_transform::Shifted;

/// What became of an entry as a change crossed it.
#[derive(Drop)]
pub(crate) enum Became {
    /// Its one list instruction does this now.
    Moved(ListAction),
    /// It is this one now.
    Changed(SharedEntry),
}

/// What changed as a change crossed it: an entry, with its place among those from the base on, and what became of it; or a
/// stretch of them.
#[derive(Drop)]
pub(crate) enum Crossed {
    One { place: usize, became: Became },
    Stretch(Across),
}

/// A change as carried over the entries of a reciprocal list from a base on, and the entries that changed as it crossed
/// them. The others stay as they are.
#[derive(Drop)]
pub struct Carried {
    pub(crate) base: u32,
    pub(crate) changes: Changeset,
    pub(crate) crossed: Vec<Crossed>,
}

impl Model for Carried {
    ghost use Rattle.sync_recip.specs.Carrying.{Carrying};

    ghost Value = { Carrying };

    ghost view = { λ a. record { base = a.base; changes = a.changes; crossed = a.crossed.items } };
}

impl Carried {
    /// A change that was made at a base, as carried, and what crossed it.
    pub(crate) fn new(base: u32, changes: Shifted, crossed: Vec<Crossed>) -> Carried
        ensures { result ≡ record { base = base; changes = changes; crossed = crossed.items } }
    {
        Carried {
            base,
            changes: changes.into_changes(),
            crossed,
        }
    }

    /// The change as carried.
    pub fn changes(&self) -> &Changeset
        ensures { result.now ≡ self.now.changes }
    {
        &self.changes
    }
}

/// Puts the entries that changed in place of what they were, from the first on, where their places are counted from the place
/// `first` on. The index follows.
pub(crate) fn put_crossed(
    rivals: &mut RivalIndex,
    items: &mut Items,
    first: usize,
    crossed: Vec<Crossed>,
)
    requires within { first ≤ length items.old }
    requires fits { AllFit crossed.items (drop first (map kept_entry items.old)) }
    requires listed { Lists rivals.old (lists_in (map kept_entry items.old)) }
    ensures versions { versions items.new ≡ versions items.old }
    ensures entries { map kept_entry items.new ≡ from_place first (crossed_entries crossed.items) (map kept_entry items.old) }
    ensures listed { Lists rivals.new (lists_in (map kept_entry items.new)) }
{
    let mut rest = crossed;
    rest.reverse();
    while let Some(one) = rest.pop() {
        put_one(rivals, items, first, one);
    }
}

fn put_one(rivals: &mut RivalIndex, items: &mut Items, first: usize, crossed: Crossed)
    requires within { first ≤ length items.old }
    requires fits { FitsOne crossed (drop first (map kept_entry items.old)) }
    requires listed { Lists rivals.old (lists_in (map kept_entry items.old)) }
    ensures versions { versions items.new ≡ versions items.old }
    ensures entries { map kept_entry items.new ≡ from_place first (put_crossed crossed) (map kept_entry items.old) }
    ensures listed { Lists rivals.new (lists_in (map kept_entry items.new)) }
{
    match crossed {
        Crossed::One { place, became } => {
            let place = items.place_behind(first, place);
            match became {
                Became::Moved(action) => shift_one(rivals, items, place, action),
                Became::Changed(entry) => change_one(rivals, items, place, entry),
            }
        }
        Crossed::Stretch(across) => {
            let start = items.place_behind(first, across.start);
            cross(rivals, items, Across { start, ..across });
        }
    }
}

/// The index asks nothing of where an instruction of a list stands, so it stays.
fn shift_one(rivals: &RivalIndex, items: &mut Items, place: usize, action: ListAction)
    requires left { LeftAt place (Became.Moved action) (lists_in (map kept_entry items.old)) }
    requires listed { Lists rivals.now (lists_in (map kept_entry items.old)) }
    ensures versions { versions items.new ≡ versions items.old }
    ensures entries { map kept_entry items.new ≡ with_crossed place (Became.Moved action) (map kept_entry items.old) }
    ensures listed { Lists rivals.now (lists_in (map kept_entry items.new)) }
{
    items.put(place, Became::Moved(action));
}

fn change_one(rivals: &mut RivalIndex, items: &mut Items, place: usize, entry: SharedEntry)
    requires left { LeftAt place (Became.Changed entry) (lists_in (map kept_entry items.old)) }
    requires listed { Lists rivals.old (lists_in (map kept_entry items.old)) }
    ensures versions { versions items.new ≡ versions items.old }
    ensures entries { map kept_entry items.new ≡ with_crossed place (Became.Changed entry) (map kept_entry items.old) }
    ensures listed { Lists rivals.new (lists_in (map kept_entry items.new)) }
{
    let before = items.listed(place);
    let after = entry.entry().changes.instrs();
    rivals.change(place, before, after);
    items.put(place, Became::Changed(entry));
}

/// Those of a stretch meet an action. The index asks nothing of where they stand, so it stays.
fn cross(rivals: &RivalIndex, items: &mut Items, across: Across)
    requires fits { FitsOne (Crossed.Stretch across) (map kept_entry items.old) }
    requires listed { Lists rivals.now (lists_in (map kept_entry items.old)) }
    ensures versions { versions items.new ≡ versions items.old }
    ensures entries { map kept_entry items.new ≡ put_across across (map kept_entry items.old) }
    ensures listed { Lists rivals.now (lists_in (map kept_entry items.new)) }
{
    items.cross(across);
}
