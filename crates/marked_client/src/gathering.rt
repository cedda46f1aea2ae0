ghost use Rattle.std.specs.Prelude.{◌≡◌, OnErr, true};

use crate::client::MarkedClient;
use gathered_disk::GatheredDisk;
use sync_disk::{Disk, DiskRefusal};

impl<D: Disk> MarkedClient<D> {
    ghost use Rattle.marked_client.specs.Marked.{is_closed, life_of, marks_of, replica_of};

    /// The same client over a disk that gathers: from then on `land` brings the records and notes of its calls to the disk.
    pub fn gathered(self) -> MarkedClient<GatheredDisk<D>>
        ensures replica { replica_of result ≡ replica_of self }
        ensures marks { marks_of result ≡ marks_of self }
        ensures life { life_of result ≡ life_of self }
        ensures closed { is_closed result ≡ is_closed self }
    {
        MarkedClient {
            alloc: self.alloc,
            client: self.client.gathered(),
            marks: self.marks,
            life: self.life,
        }
    }
}

impl<D: Disk> MarkedClient<GatheredDisk<D>> {
    ghost use Rattle.marked_client.specs.Marked.{is_closed, life_of, marks_of, replica_of};

    /// Brings what it wrote to the disk below. After an `Err` it is closed until it is opened again.
    pub fn land(&mut self) -> Result<(), DiskRefusal>
        ensures replica { replica_of self.new ≡ replica_of self.old }
        ensures marks { marks_of self.new ≡ marks_of self.old }
        ensures life { life_of self.new ≡ life_of self.old }
        ensures closes { OnErr result (is_closed self.new ≡ true) }
    {
        self.client.journal.land()
    }
}
