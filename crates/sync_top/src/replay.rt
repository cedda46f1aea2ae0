ghost use Rattle.std.specs.Prelude.{◌≡◌, IfOk};
ghost use Rattle.sync_edits.specs.Lines.{ReadsLine, event_form_of_line};
ghost use Rattle.sync_world.specs.Events.{IsCounted};
ghost use Rattle.sync_top.specs.Exchange.{answers, report};

use super::command::{Command, LineEnd};
use std::alloc::Global;
use sync_data::NoMemory;
use sync_edits::{Event, LineRefusal, event_of};
use sync_world::World;

/// The event that a line is; a stop is counted from 1.
fn counted_event(alloc: Global, line: &[u8]) -> Result<Event, LineRefusal>
    ensures reads { ReadsLine result (event_form_of_line line.now) }
    ensures counted { IfOk result IsCounted }
{
    event_of(alloc, line)
}

impl Command for World {
    ghost use Rattle.sync_model.specs.Worlds as model;
    ghost use Rattle.sync_world.specs.Holding.{Holds};

    ghost State = { model.World };

    ghost holds = { Holds };

    ghost answers = { answers };

    ghost report = { report };

    fn answer(&mut self, alloc: Global, number: u32, line: &[u8]) -> Result<Vec<u8>, LineEnd> {
        let event = match counted_event(alloc, line) {
            Ok(event) => event,
            Err(LineRefusal::BadLine) => return Err(LineEnd::BadLine),
            Err(LineRefusal::NoMemory) => return Err(LineEnd::NoMemory),
        };
        let Ok(outcome) = self.step(event) else {
            return Err(LineEnd::NoMemory);
        };
        match outcome.line(alloc, number) {
            Ok(text) => Ok(text),
            Err(NoMemory) => Err(LineEnd::NoMemory),
        }
    }

    fn report(&self) -> Result<Vec<u8>, NoMemory> {
        World::report(self)
    }
}
