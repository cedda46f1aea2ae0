ghost use Rattle.std.specs.Prelude.{◌≤◌};
ghost use Rattle.sync_model.specs.Worlds as model;
ghost use Rattle.sync_exchange.specs.Profile.{the_profile};
ghost use Rattle.sync_world.specs.Events.{leaves_seen};

use crate::laws::worlds_read_back;
use crate::stop::Stop;
use crate::world::World;
use sync_data::{Name, NoMemory};
use sync_disk::Leaves;
use sync_words::Outcome;

impl World {
    ghost use Rattle.sync_world.specs.Holding.{Happens, Holds};

    /// A node is opened again.
    pub(crate) fn restart(&mut self, name: &Name) -> Result<Outcome, NoMemory>
        ensures { (w : model.World) → Holds w self.old → Happens (model.happens the_profile w (model.Restarts name.now)) result self.new }
    {
        if name.text() == "server" {
            return self.restart_server();
        }
        worlds_read_back();
        let Some(place) = self.find(name) else {
            return Ok(Outcome::NoNode);
        };
        match self.clients[place].restart(self.alloc) {
            Ok(()) => Ok(Outcome::Opened),
            Err(NoMemory) => Err(NoMemory),
        }
    }

    fn restart_server(&mut self) -> Result<Outcome, NoMemory>
        ensures { (w : model.World) → Holds w self.old → Happens (model.happens the_profile w (model.Restarts model.server_name)) result self.new }
    {
        worlds_read_back();
        match self.hub.restart(self.alloc) {
            Ok(()) => Ok(Outcome::Opened),
            Err(NoMemory) => Err(NoMemory),
        }
    }

    /// A node's disk is to stop.
    pub(crate) fn arm(&mut self, name: &Name, at: u32, leaves: Leaves) -> Result<Outcome, NoMemory>
        requires { 1 ≤ at }
        ensures { (w : model.World) → Holds w self.old → Happens (model.happens the_profile w (model.Stops name.now at (leaves_seen leaves))) result self.new }
    {
        let stop = Stop { at, leaves };
        if name.text() == "server" {
            return self.arm_server(stop);
        }
        worlds_read_back();
        let Some(place) = self.find(name) else {
            return Ok(Outcome::NoNode);
        };
        self.clients[place].arm(stop);
        Ok(Outcome::Armed)
    }

    fn arm_server(&mut self, stop: Stop) -> Result<Outcome, NoMemory>
        ensures { (w : model.World) → Holds w self.old → Happens (model.happens the_profile w (model.Stops model.server_name stop.at (leaves_seen stop.leaves))) result self.new }
    {
        worlds_read_back();
        self.hub.arm(stop);
        Ok(Outcome::Armed)
    }
}
