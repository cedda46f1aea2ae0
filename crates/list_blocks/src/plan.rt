ghost use Rattle.std.specs.Prelude.{◌≡◌, Ok, IfSome};
ghost use Rattle.sync_theory.specs.Lists.{cross};
ghost use Rattle.sync_theory.specs.Changesets.{later_stamp};
ghost use Rattle.sync_law.specs.Instrs.{meet};
ghost use Rattle.list_blocks.specs.Blocks.{acted};

use super::action::start_of;
use super::lane::{actions_of, cross_lane, lane_of};
use list_places::ListAction;
use std::alloc::Global;
use sync_base::{Changeset, Ident, Stamp};

/// So many meetings of two instructions are quicker than a lane.
const FEW_MEETINGS: usize = 4_096;

/// What the instructions of two changesets do once they crossed; nothing where one fell.
#[derive(Drop)]
pub(crate) struct Plan {
    pub(crate) lefts: Vec<Option<ListAction>>,
    pub(crate) rights: Vec<Option<ListAction>>,
}

/// How two changesets cross by a lane: where both are list instructions of one cell, one after another, they are many, and there
/// is memory for it.
pub(crate) fn planned(
    alloc: Global,
    left: &Changeset,
    left_ident: Ident,
    right: &Changeset,
    right_ident: Ident,
) -> Option<Plan>
    ensures { IfSome result (λ plan. cross (λ a b. meet a b (later_stamp left.now.ms left_ident right.now.ms right_ident)) left.now.instrs right.now.instrs ≡ Ok (acted plan.lefts.items left.now.instrs, acted plan.rights.items right.now.instrs)) }
{
    let lefts = left.instrs();
    let rights = right.instrs();
    if lefts.len().saturating_mul(rights.len()) <= FEW_MEETINGS {
        return None;
    }
    let (cell, first) = start_of(lefts)?;
    let left_stamp = Stamp {
        ms: left.ms(),
        ident: left_ident,
    };
    let right_stamp = Stamp {
        ms: right.ms(),
        ident: right_ident,
    };
    let mut lane = lane_of(alloc, rights, cell, first, right_stamp)?;
    let lefts = cross_lane(alloc, lefts, cell, left_stamp, &mut lane)?;
    let rights = actions_of(alloc, lane)?;
    Some(Plan { lefts, rights })
}
