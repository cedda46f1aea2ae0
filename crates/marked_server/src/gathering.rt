ghost use Rattle.std.specs.Prelude.{◌≡◌, OnErr, true};

use crate::server::MarkedServer;
use gathered_disk::GatheredDisk;
use sync_disk::{Disk, DiskRefusal};

impl<D: Disk> MarkedServer<D> {
    ghost use Rattle.marked_server.specs.Marked.{is_closed, life_of, marks_of, parts_of};

    /// The same server over a disk that gathers: from then on `land` brings the records and notes of its calls to the disk.
    pub fn gathered(self) -> MarkedServer<GatheredDisk<D>>
        ensures parts { parts_of result ≡ parts_of self }
        ensures marks { marks_of result ≡ marks_of self }
        ensures life { life_of result ≡ life_of self }
        ensures closed { is_closed result ≡ is_closed self }
    {
        MarkedServer {
            alloc: self.alloc,
            server: self.server.gathered(),
            marks: self.marks,
            life: self.life,
        }
    }
}

impl<D: Disk> MarkedServer<GatheredDisk<D>> {
    ghost use Rattle.marked_server.specs.Marked.{is_closed, life_of, marks_of, parts_of};

    /// Brings what it wrote to the disk below. After an `Err` it is closed until it is opened again.
    pub fn land(&mut self) -> Result<(), DiskRefusal>
        ensures parts { parts_of self.new ≡ parts_of self.old }
        ensures marks { marks_of self.new ≡ marks_of self.old }
        ensures life { life_of self.new ≡ life_of self.old }
        ensures closes { OnErr result (is_closed self.new ≡ true) }
    {
        self.server.journal.land()
    }
}
