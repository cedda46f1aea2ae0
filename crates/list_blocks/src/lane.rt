ghost use Rattle.std.specs.Prelude.{◌≡◌, ◌+◌, ◌<◌, IfSome, IsTrue, length};
ghost use Rattle.sync_base.specs.Rules.{top};
ghost use Rattle.list_blocks.specs.Blocks.{slot_actions, CrossesBlock, Tells};

use super::action::{action_told, op_in};
use list_places::ListAction;
use list_regions::Regions;
use std::alloc::Global;
use sync_base::{CellName, Instr, Stamp};

/// The instructions as a lane, where they are of the list in that cell, one after another from that length on.
pub(crate) fn lane_of(
    alloc: Global,
    instrs: &[Instr],
    cell: &CellName,
    first: u32,
    stamp: Stamp,
) -> Option<Regions>
    ensures { IfSome result (Tells cell.now stamp instrs.now) }
{
    if first == u32::MAX {
        return None;
    }
    let mut lane = Regions::new(alloc, first);
    for instr in instrs {
        let op = op_in(instr, cell, lane.last(), stamp)?;
        if !has_room(&lane) {
            return None;
        }
        let Ok(()) = lane.push(op) else {
            return None;
        };
    }
    Some(lane)
}

/// Whether no list can become too long as an instruction more crosses the lane or comes to it.
fn has_room(lane: &Regions) -> bool
    ensures { IsTrue result → lane.now.first + length lane.now.slots + 1 < top }
{
    lane.len() < (u32::MAX - 1).saturating_sub(lane.first()) as usize
}

/// What is left of instructions of the list in that cell, one after another from the length before the lane on, as each crosses
/// the lane, which stands as crossed. Where they aren't such, or memory runs out, it is none.
pub(crate) fn cross_lane(
    alloc: Global,
    instrs: &[Instr],
    cell: &CellName,
    stamp: Stamp,
    lane: &mut Regions,
) -> Option<Vec<Option<ListAction>>>
    ensures { IfSome result (λ left. CrossesBlock cell.now stamp instrs.now left.items lane.old lane.new) }
{
    let mut left = Vec::new(alloc);
    for instr in instrs {
        let end = lane.last();
        let op = op_in(instr, cell, lane.first(), stamp)?;
        if !has_room(lane) {
            return None;
        }
        let Ok(rest) = lane.cross(op, false) else {
            return None;
        };
        let Ok(()) = left.push(action_told(rest, end)) else {
            return None;
        };
    }
    Some(left)
}

/// What the slots of a lane do, from the first on.
pub(crate) fn actions_of(alloc: Global, lane: Regions) -> Option<Vec<Option<ListAction>>>
    ensures { IfSome result (λ actions. actions.items ≡ slot_actions lane.first lane.slots) }
{
    let mut lane = lane;
    let mut actions = Vec::new(alloc);
    while lane.len() > 0 {
        let first = lane.first();
        let slot = lane.pop_first();
        let Ok(()) = actions.push(action_told(slot, first)) else {
            return None;
        };
    }
    Some(actions)
}
