ghost use Rattle.std.specs.Prelude.{◌≡◌, ◌≢◌, ◌≤◌, IfOk, OnOk};
ghost use Rattle.sync_io.specs.Faults.{HasRisen};
ghost use Rattle.sync_model.specs.Worlds as model;
ghost use Rattle.sync_world.specs.Holding.{Holds};
ghost use Rattle.gen_law.specs.Generated.{events_of, world_by};
ghost use Rattle.sync_top.specs.Jobs.{most_turns};
ghost use Rattle.sync_top.specs.Playing.{Writes};
ghost use Rattle.sync_top.specs.Summaries.{summary_of};

use super::plan::plan_of;
use super::progress::Progress;
use super::summary::summary_of;
use std::alloc::Global;
use sync_data::NoMemory;
use sync_io::{Sink, Status};
use sync_node::write_text;
use sync_world::World;

/// The exchange happens in a world, and its summary is answered.
fn generated(alloc: Global, seed: u64, count: u32, world: &mut World) -> Result<Vec<u8>, NoMemory>
    requires turns { count ≤ most_turns }
    requires fresh { Holds model.empty_world world.old }
    ensures summary { IfOk result (λ text. text.items ≡ summary_of seed count) }
    ensures world { OnOk result (Holds (world_by model.empty_world (events_of seed count)) world.new) }
{
    let parts = plan_of(alloc, count)?;
    let mut progress = Progress::new(seed);
    progress.play_all(alloc, world, &parts)?;
    summary_of(alloc, seed, count, progress.counts, world)
}

/// Generates an exchange of so many turns in a new world, and writes its summary (docs/FORMATS.md, "The generator").
pub fn generate<K: Sink>(
    alloc: Global,
    seed: u64,
    count: u32,
    sink: &mut K,
    world: &mut World,
) -> Status
    requires turns { count ≤ most_turns }
    requires fresh { Holds model.empty_world world.old }

    // What is written is the summary of the seed's events; after a fault and out of memory a part of it, from its front.
    ensures generated { Writes (summary_of seed count) result (K.taken sink.old) (K.taken sink.new) }

    // The events happen in this world and no other: after every answer but out of memory it is the world after all of them.
    ensures generates { result ≢ Status.NoMemory → Holds (world_by model.empty_world (events_of seed count)) world.new }

    // A fault has its cause.
    ensures faults { K.faults sink.old ≤ K.faults sink.new }
    ensures write_cause { result ≡ Status.WriteFault → HasRisen (K.faults sink.old) (K.faults sink.new) }
{
    let made = generated(alloc, seed, count, world);
    write_text(sink, made)
}
