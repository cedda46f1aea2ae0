ghost use Rattle.std.specs.Prelude.{◌≡◌, ◌≤◌, ◌<◌, [], length, IfSome};
ghost use Rattle.list_lane.specs.Bursts.{Bounded, with_slot as with, without_slot as without, earlier_of as earlier, later_of as later};
ghost use Rattle.sync_base.specs.Rules.{top};

use super::op::Op;
use list_places::{Does, is_later};
use sync_data::Stamp;

/// Where instructions lie, as they are written, and when they were made.
#[derive(Clone, Copy)]
pub(crate) struct Bounds {
    /// A place before which none is.
    pub(crate) low: u32,
    /// A place before which all are.
    pub(crate) past: u64,
    /// A place before which all are, where insertions at it count as before it.
    pub(crate) edge: u64,
    /// How many are insertions.
    pub(crate) inserted: u64,
    /// How many are erasures.
    pub(crate) erased: u64,
    /// A stamp that none is earlier than.
    pub(crate) earliest: Stamp,
    /// A stamp that none is later than.
    pub(crate) latest: Stamp,
}

/// The bounds of no instruction.
pub(crate) fn no_bounds() -> Bounds
    ensures { Bounded result [] }
{
    Bounds {
        low: u32::MAX,
        past: 0,
        edge: 0,
        inserted: 0,
        erased: 0,
        earliest: Stamp {
            ms: u64::MAX,
            ident: u32::MAX,
        },
        latest: Stamp { ms: 0, ident: 0 },
    }
}

/// The bounds of slots.
pub(crate) fn bounds_of(slots: &[Option<Op>]) -> Bounds
    requires { length slots.now ≤ top }
    ensures { Bounded result slots.now }
{
    let mut result = no_bounds();
    for i in 0..slots.len() {
        result = with_slot(slots[i], result);
    }
    result
}

/// The bounds with a slot behind all others.
#[inline(always)]
pub(crate) fn with_slot(slot: Option<Op>, bounds: Bounds) -> Bounds
    requires inserted { bounds.inserted ≤ top }
    requires erased { bounds.erased ≤ top }
    ensures { result ≡ with slot bounds }
{
    let Some(op) = slot else {
        return bounds;
    };
    let (inserted, erased) = match op.does {
        Does::Inserts => (1, 0),
        Does::Erases => (0, 1),
        Does::Updates => (0, 0),
    };
    // The place from which the instructions in front push to the one behind its own.
    let past = op.place as u64 + bounds.erased + 1;
    Bounds {
        low: op.place.min(bounds.low),
        past: bounds.past.max(past.saturating_sub(bounds.inserted)),
        edge: bounds
            .edge
            .max((past - inserted).saturating_sub(bounds.inserted)),
        inserted: bounds.inserted + inserted,
        erased: bounds.erased + erased,
        earliest: earlier_of(op.stamp, bounds.earliest),
        latest: later_of(op.stamp, bounds.latest),
    }
}

/// The bounds without the first slot, if they can be told without a look at the others.
#[inline(always)]
pub(crate) fn without_slot(slot: Option<Op>, bounds: Bounds) -> Option<Bounds>
    ensures { IfSome result (λ b. b ≡ without slot bounds) }
{
    let Some(op) = slot else {
        return Some(bounds);
    };
    match op.does {
        Does::Inserts => Some(Bounds {
            past: bounds.past.checked_add(1)?,
            edge: bounds.edge.checked_add(1)?,
            inserted: bounds.inserted.saturating_sub(1),
            ..bounds
        }),
        Does::Erases => Some(Bounds {
            past: bounds.past.saturating_sub(1),
            edge: bounds.edge.saturating_sub(1),
            erased: bounds.erased.saturating_sub(1),
            ..bounds
        }),
        Does::Updates => Some(bounds),
    }
}

#[inline(always)]
fn earlier_of(first: Stamp, second: Stamp) -> Stamp
    ensures { result ≡ earlier first second }
{
    if is_later(second, first) {
        first
    } else {
        second
    }
}

#[inline(always)]
fn later_of(first: Stamp, second: Stamp) -> Stamp
    ensures { result ≡ later first second }
{
    if is_later(first, second) {
        first
    } else {
        second
    }
}
