ghost use Rattle.std.specs.Prelude.{◌≡◌, ◌<◌, ◌*◌, ◌^◌, ◌∷◌, [], length, IfOk, OnOk};
ghost use Rattle.sync_gen.specs.Clients.{name_of};
ghost use Rattle.sync_gen.specs.Edits.{edit_of};
ghost use Rattle.sync_model.specs.Worlds as model;
ghost use Rattle.sync_world.specs.Holding.{Holds};
ghost use Rattle.sync_top.specs.Counting.{Goes};
ghost use Rattle.gen_law.specs.Generated.{done_by, events_by, move_events, objects_of};
ghost use Rattle.gen_law.specs.Plans.{AreMoves, IsClient, IsMove};
ghost use Rattle.sync_top.specs.Playing.{PlaysPart};

use super::counts::Counts;
use gen_law::Move;
use std::alloc::Global;
use sync_base::Instr;
use sync_data::{Listed, Name, NoMemory};
use sync_edits::Event;
use sync_gen::{Gen, TurnKind, client_id, client_name, first_edits};
use sync_store::Store;
use sync_world::World;

/// A generated exchange under way.
#[derive(Drop)]
pub struct Progress {
    pub draws: Gen,
    pub counts: Counts,
}

/// A transaction of one edit.
fn one_edit(alloc: Global, edit: Instr) -> Result<Listed<Instr>, NoMemory>
    ensures { IfOk result (λ edits. edits ≡ edit ∷ []) }
{
    let Ok(mut edits) = Vec::with_capacity(alloc, 1) else {
        drop(edit);
        return Err(NoMemory);
    };
    match edits.push(edit) {
        Ok(()) => Ok(Listed::of(edits)),
        Err(failed) => {
            drop(failed);
            Err(NoMemory)
        }
    }
}

impl Progress {
    /// No event has happened.
    pub(crate) fn new(seed: u64) -> Progress
        ensures { result ≡ record { draws = seed; counts = record { messages = 0; made = 0; refused = 0 } } }
    {
        Progress {
            draws: Gen::new(seed),
            counts: Counts::new(),
        }
    }

    fn join(&mut self, world: &mut World, client: u32) -> Result<(), NoMemory>
        requires { IsClient client }
        ensures { PlaysPart result (move_events (Move.Join client)) self.old world.old self.new world.new }
    {
        let name = client_name(client);
        let id = client_id(client);
        self.counts.step(world, Event::Client { name, id })?;
        let sending = Event::Bind {
            client: client_name(client),
        };
        self.counts.exchange(world, client, sending)
    }

    fn found(&mut self, alloc: Global, world: &mut World) -> Result<(), NoMemory>
        ensures { PlaysPart result (move_events Move.Found) self.old world.old self.new world.new }
    {
        let client = client_name(1);
        let edits = Listed::of(first_edits(alloc)?);
        let ms = 1;
        self.counts.step(world, Event::Edit { client, ms, edits })
    }

    fn push(&mut self, world: &mut World, client: u32) -> Result<(), NoMemory>
        requires { IsClient client }
        ensures { PlaysPart result (done_by (name_of client) TurnKind.Push) self.old world.old self.new world.new }
    {
        let sending = Event::Upload {
            client: client_name(client),
        };
        self.counts.exchange(world, client, sending)
    }

    fn pull(&mut self, world: &mut World, client: u32) -> Result<(), NoMemory>
        requires { IsClient client }
        ensures { PlaysPart result (done_by (name_of client) TurnKind.Pull) self.old world.old self.new world.new }
    {
        let sending = Event::Ask {
            client: client_name(client),
        };
        self.counts.exchange(world, client, sending)
    }

    fn restart(&mut self, world: &mut World, client: u32) -> Result<(), NoMemory>
        requires { IsClient client }
        ensures { PlaysPart result (done_by (name_of client) TurnKind.Restart) self.old world.old self.new world.new }
    {
        let node = client_name(client);
        self.counts.step(world, Event::Restart { node })
    }

    /// The edit that is drawn for a client's objects. A client that isn't there has none.
    fn drawn_edit(&mut self, alloc: Global, world: &World, name: &Name) -> Result<Instr, NoMemory>
        ensures edit { (w : model.World) → Holds w world.now → IfOk result (λ edit. edit ≡ (edit_of (objects_of w name.now) self.old.draws).0) }
        ensures draws { (w : model.World) → Holds w world.now → OnOk result (self.new.draws ≡ (edit_of (objects_of w name.now) self.old.draws).1) }
        ensures counts { self.new.counts ≡ self.old.counts }
    {
        match world.client(name) {
            Some(client) => self.draws.edit(alloc, client.objects()),
            None => {
                let nothing = Store::new(alloc)?;
                self.draws.edit(alloc, &nothing)
            }
        }
    }

    fn edit(
        &mut self,
        alloc: Global,
        world: &mut World,
        client: u32,
        ms: u64,
    ) -> Result<(), NoMemory>
        requires { IsClient client }
        ensures { PlaysPart result (done_by (name_of client) (TurnKind.Edit ms)) self.old world.old self.new world.new }
    {
        let client = client_name(client);
        let edit = self.drawn_edit(alloc, world, &client)?;
        let edits = one_edit(alloc, edit)?;
        self.counts.step(world, Event::Edit { client, ms, edits })
    }

    fn turn(&mut self, alloc: Global, world: &mut World, number: u32) -> Result<(), NoMemory>
        ensures { PlaysPart result (move_events (Move.Turn number)) self.old world.old self.new world.new }
    {
        let turn = self.draws.turn(number);
        match turn.kind {
            TurnKind::Restart => self.restart(world, turn.client),
            TurnKind::Edit { ms } => self.edit(alloc, world, turn.client, ms),
            TurnKind::Push => self.push(world, turn.client),
            TurnKind::Pull => self.pull(world, turn.client),
        }
    }

    /// The events of a part happen.
    fn play(&mut self, alloc: Global, world: &mut World, part: Move) -> Result<(), NoMemory>
        requires { IsMove part }
        ensures { PlaysPart result (move_events part) self.old world.old self.new world.new }
    {
        match part {
            Move::Join { client } => self.join(world, client),
            Move::Found => self.found(alloc, world),
            Move::Push { client } => self.push(world, client),
            Move::Pull { client } => self.pull(world, client),
            Move::Turn { number } => self.turn(alloc, world, number),
        }
    }

    /// The events of all parts happen.
    pub(crate) fn play_all(
        &mut self,
        alloc: Global,
        world: &mut World,
        parts: &[Move],
    ) -> Result<(), NoMemory>
        requires starts { Goes [] self.old.counts world.old }
        requires few { 4 * length parts.now < 2 ^ 32 }
        requires moves { AreMoves parts.now }
        ensures { OnOk result (Goes (events_by parts.now model.empty_world self.old.draws) self.new.counts world.new) }
    {
        for part in parts {
            self.play(alloc, world, *part)?;
        }
        Ok(())
    }
}
