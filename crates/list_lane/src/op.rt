ghost use Rattle.std.specs.Prelude.{◌≡◌};
ghost use Rattle.list_places.specs.Places.{Within};
ghost use Rattle.list_places.specs.Moves.{kind_of};
ghost use Rattle.list_lane.specs.Told.{action, place_in, prior_in};

use list_places::{Does, ListAction};
use sync_base::{Between, Inside};
use sync_data::Stamp;

/// An instruction of a lane: what it does, where, and its stamp. How long its list is then is told by the lane.
#[derive(Clone, Copy)]
pub struct Op {
    pub does: Does,
    pub place: u32,
    pub stamp: Stamp,
}

/// The length of the list on which it acts.
#[inline(always)]
pub fn prior_of(act: ListAction) -> u32
    ensures { result ≡ prior_in act }
{
    match act {
        ListAction::Insert(gap) => gap.prior(),
        ListAction::Erase(element) | ListAction::Update(element) => element.prior(),
    }
}

/// What an action is in a lane, where its changeset has this stamp.
#[inline(always)]
pub fn op_of(act: ListAction, stamp: Stamp) -> Op
    ensures is { result ≡ record { does = kind_of act; place = place_in act; stamp = stamp } }
    ensures within { Within result.does result.place (prior_in act) }
{
    match act {
        ListAction::Insert(gap) => Op {
            does: Does::Inserts,
            place: gap.place(),
            stamp,
        },
        ListAction::Erase(element) => Op {
            does: Does::Erases,
            place: element.place(),
            stamp,
        },
        ListAction::Update(element) => Op {
            does: Does::Updates,
            place: element.place(),
            stamp,
        },
    }
}

/// What an instruction of a lane does on a list of that length.
#[inline(always)]
pub fn action_of(op: Op, length: u32) -> ListAction
    requires { Within op.does op.place length }
    ensures { result ≡ action op.does op.place length }
{
    match op.does {
        Does::Inserts => ListAction::Insert(Between::new(op.place, length).unwrap()),
        Does::Erases => ListAction::Erase(Inside::new(op.place, length).unwrap()),
        Does::Updates => ListAction::Update(Inside::new(op.place, length).unwrap()),
    }
}
