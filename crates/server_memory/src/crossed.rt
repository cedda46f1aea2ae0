ghost use Rattle.std.specs.Prelude.{◌≡◌, IfOk};
ghost use Rattle.std.specs.Option.{option_map};
ghost use Rattle.server_memory.specs.Readers.{changes_of, past};

use crate::kept::Kept;
use sync_base::{Changeset, Ident, NoMemory};

impl Kept {
    ghost use Rattle.server_memory.specs.Kept.{parts};

    /// The entry of a version as the next changes of an ident cross it.
    pub fn past(&self, ident: Ident, version: u32) -> Result<Option<Changeset>, NoMemory>
        ensures { IfOk result (λ found. found ≡ option_map changes_of (past (parts self.now) ident version)) }
    {
        let Some(given) = self.history.at(ident) else {
            return Ok(None);
        };
        if given.heir().is_some() || version < self.history.floor() || version < given.last() {
            return Ok(None);
        }
        match given.reciprocal().at(version) {
            Ok(Some(entry)) => Ok(Some(entry.changes)),
            Ok(None) => Ok(None),
            Err(NoMemory) => Err(NoMemory),
        }
    }
}
