ghost use Rattle.std.specs.Prelude.{◌≡◌, ◌∷◌, ◌++◌, [], map, IfOk, OnOk};
ghost use Rattle.gen_law.specs.Plans.{plan, round, rounds, turns};

use gen_law::Move;
use std::alloc::Global;
use sync_data::NoMemory;

/// The numbers of all clients.
pub(crate) const EVERY_CLIENT: [u32; 8] = [1, 2, 3, 4, 5, 6, 7, 8];

/// How often every client pushes and pulls at the end.
const ROUNDS: u32 = 64;

fn add(plan: &mut Vec<Move>, next: Move) -> Result<(), NoMemory>
    ensures { OnOk result (plan.new.items ≡ plan.old.items ++ next ∷ []) }
{
    match plan.push(next) {
        Ok(()) => Ok(()),
        Err(_) => Err(NoMemory),
    }
}

fn add_joins(plan: &mut Vec<Move>, clients: &[u32]) -> Result<(), NoMemory>
    ensures { OnOk result (plan.new.items ≡ plan.old.items ++ map Move.Join clients.now) }
{
    for client in clients {
        add(plan, Move::Join { client: *client })?;
    }
    Ok(())
}

fn add_pulls(plan: &mut Vec<Move>, clients: &[u32]) -> Result<(), NoMemory>
    ensures { OnOk result (plan.new.items ≡ plan.old.items ++ map Move.Pull clients.now) }
{
    for client in clients {
        add(plan, Move::Pull { client: *client })?;
    }
    Ok(())
}

fn add_turns(plan: &mut Vec<Move>, count: u32) -> Result<(), NoMemory>
    ensures { OnOk result (plan.new.items ≡ plan.old.items ++ turns count) }
{
    for before in 0..count {
        add(plan, Move::Turn { number: before + 1 })?;
    }
    Ok(())
}

/// Each client pushes, and then pulls.
fn add_round(plan: &mut Vec<Move>, clients: &[u32]) -> Result<(), NoMemory>
    ensures { OnOk result (plan.new.items ≡ plan.old.items ++ round clients.now) }
{
    for each in clients {
        add(plan, Move::Push { client: *each })?;
        add(plan, Move::Pull { client: *each })?;
    }
    Ok(())
}

fn add_rounds(plan: &mut Vec<Move>) -> Result<(), NoMemory>
    ensures { OnOk result (plan.new.items ≡ plan.old.items ++ rounds ROUNDS) }
{
    for _before in 0..ROUNDS {
        add_round(plan, &EVERY_CLIENT)?;
    }
    Ok(())
}

/// All parts of an exchange of so many turns, in order.
pub(crate) fn plan_of(alloc: Global, count: u32) -> Result<Vec<Move>, NoMemory>
    ensures { IfOk result (λ parts. parts.items ≡ plan count) }
{
    let mut parts = Vec::new(alloc);
    add_joins(&mut parts, &EVERY_CLIENT)?;
    add(&mut parts, Move::Found)?;
    add(&mut parts, Move::Push { client: 1 })?;
    add_pulls(&mut parts, &EVERY_CLIENT)?;
    add_turns(&mut parts, count)?;
    add_rounds(&mut parts)?;
    Ok(parts)
}
