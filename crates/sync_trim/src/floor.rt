ghost use Rattle.std.specs.Prelude.{◌≡◌, ◌≤◌, if◌then◌else◌, min, max, Some, IfOk};
ghost use Rattle.sync_data.specs.declared.instr.Instr.{Instr};
ghost use Rattle.sync_model.specs.Parts.{Given, at_ident};
ghost use Rattle.sync_model.specs.Trims.{is_live, next_floor, state_from};
ghost use Rattle.sync_exchange.specs.Profile.{the_profile};
ghost use Rattle.server_memory.specs.Kept.{parts};
ghost use Rattle.sync_server.specs.Serving.{kept_of};

use std::alloc::Global;
use sync_base::{Ident, NoMemory};
use sync_disk::Disk;
use sync_server::Server;
use sync_snapshot::{build, grown};
use sync_store::{AllRefusal, Store};

/// The version at which the history of the server's next file begins.
pub(crate) fn next_floor<D: Disk>(server: &Server<D>) -> u32
    ensures next { result ≡ next_floor (parts (kept_of server.now)) }
    ensures above { (parts (kept_of server.now)).floor ≤ result }
{
    let mut next = server.len();
    for place in 0..server.idents() {
        next = lowered(server, place + 1, next);
    }
    next
}

/// The lesser of a version and of what an ident has settled, but no version below the floor. An ident that is retired
/// settles nothing.
fn lowered<D: Disk>(server: &Server<D>, ident: Ident, next: u32) -> u32
    ensures { (g : Given Instr) → at_ident ident (parts (kept_of server.now)).idents ≡ Some g → result ≡ (if is_live g then min (max g.mark (parts (kept_of server.now)).floor) next else next) }
{
    if server.reciprocal(ident).is_none() {
        return next;
    }
    match server.counts(ident) {
        Some(counts) => counts.settled.max(server.floor()).min(next),
        None => next,
    }
}

/// The state at a version from the floor on.
pub(crate) fn state_at<D: Disk>(
    alloc: Global,
    server: &Server<D>,
    version: u32,
) -> Result<Store, NoMemory>
    ensures { IfOk result (λ s. s ≡ state_from the_profile (parts (kept_of server.now)) version) }
{
    let below = server.floor_objects();
    let mut objects = copy_of(alloc, below)?;
    for next in server.floor()..version {
        let Some(entry) = server.entry(next) else {
            return Ok(objects);
        };
        match objects.apply_all(&entry.changes) {
            Ok(()) => {}
            Err(AllRefusal::Break { place: _, cause: _ }) => {
                let unchanged = copy_of(alloc, below)?;
                return Ok(unchanged);
            }
            Err(AllRefusal::NoMemory) => return Err(NoMemory),
        }
    }
    Ok(objects)
}

/// A store with the same state, grown from its parts.
fn copy_of(alloc: Global, objects: &Store) -> Result<Store, NoMemory>
    ensures { IfOk result (λ copy. copy ≡ objects.now) }
{
    objects.keeps_its_limits();
    let parts = build(alloc, objects)?;
    match grown(alloc, parts.as_slice()) {
        Ok(copy) => Ok(copy),
        Err(_) => Err(NoMemory),
    }
}
