ghost use Rattle.std.specs.Prelude.{◌≡◌, ◌<◌};
ghost use Rattle.sync_base.specs.Rules.{top};
ghost use Rattle.list_places.specs.Places.{Within};
ghost use Rattle.list_places.specs.Moves.{kind_of};
ghost use Rattle.list_lane.specs.Told.{place_in, prior_in};
ghost use Rattle.list_lane.specs.Actions.{action_after};

use super::op::{Op, action_of};
use list_places::{Does, ListAction, length_after, place_after};
use sync_data::Stamp;

/// What an action does, where, and on a list of which length.
pub fn parts_of(action: &ListAction) -> (Does, u32, u32)
    ensures does { result.0 ≡ kind_of action.now }
    ensures place { result.1 ≡ place_in action.now }
    ensures prior { result.2 ≡ prior_in action.now }
    ensures within { Within result.0 result.1 result.2 }
{
    match action {
        ListAction::Insert(gap) => (Does::Inserts, gap.place(), gap.prior()),
        ListAction::Erase(element) => (Does::Erases, element.place(), element.prior()),
        ListAction::Update(element) => (Does::Updates, element.place(), element.prior()),
    }
}

/// What is left of the first of two actions in one list after the other, or none where it is dropped. The flag is whether it is
/// the later one.
pub fn action_left(later: bool, first: &ListAction, second: &ListAction) -> Option<ListAction>
    requires sizes { prior_in first.now ≡ prior_in second.now }
    requires room { prior_in first.now < top }
    ensures { result ≡ action_after later first.now second.now }
{
    let (does, place, prior) = parts_of(first);
    let (other, other_place, _) = parts_of(second);
    let place = place_after(later, does, place, other, other_place)?;
    let stamp = Stamp { ms: 0, ident: 0 };
    let left = Op { does, place, stamp };
    Some(action_of(left, length_after(other, prior)))
}
