ghost use Rattle.std.specs.Prelude.{◌≡◌};
ghost use Rattle.std.specs.Option.{option_copied};
ghost use Rattle.sync_model.specs.Parts.{at_ident};
ghost use Rattle.server_memory.specs.Kept.{parts};
ghost use Rattle.server_memory.specs.Readers.{live_list};

use crate::server::Server;
use sync_base::Ident;
use sync_disk::Disk;
use sync_recip::Recip;

impl<D: Disk> Server<D> {
    ghost use Rattle.sync_server.specs.Serving.{kept_of};

    /// The entries of others as the next changes of an ident cross them, with their versions; none where the ident isn't
    /// given or is retired.
    pub fn reciprocal(&self, ident: Ident) -> Option<&Recip>
        ensures { option_copied result ≡ live_list (at_ident ident (parts (kept_of self.now)).idents) }
    {
        let Some(given) = self.kept.history.at(ident) else {
            return None;
        };
        if given.heir().is_some() {
            return None;
        }
        Some(given.reciprocal())
    }
}
