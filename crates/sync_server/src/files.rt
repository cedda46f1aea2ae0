ghost use Rattle.std.specs.Prelude.{◌≡◌, ◌≤◌, ℕ, List, IfOk, IfErr, Some, false};
ghost use Rattle.sync_disk.specs.Disk.{LeavesOnly, Rose, Told};
ghost use Rattle.sync_disk.specs.Faults.{IsSound};
ghost use Rattle.sync_journal.specs.Records.{records_of};
ghost use Rattle.sync_journal.specs.Records.Reading.{Good};
ghost use Rattle.sync_journal.specs.Landed.{IsLanded};
ghost use Rattle.sync_journal.specs.Stands.{Stands, disk_of};
ghost use Rattle.gathered_disk.specs.Below.{below};

use crate::server::Server;
use gathered_disk::GatheredDisk;
use server_memory::Kept;
use std::alloc::Global;
use sync_disk::Disk;
use sync_journal::{Journal, OpenCause, OpenRefusal};

impl<D: Disk> Server<D> {
    ghost use Rattle.sync_server.specs.Serving.{is_closed, journal_of, kept_of};
    ghost use Rattle.sync_server.specs.Files.{BadPlace, Opened};

    /// Opens the server of a disk. Besides what a journal refuses, `BadFile` comes where a record isn't one that a server would
    /// have written after those before it, with the place of its gate. An `Err` hands the disk back.
    pub fn open(alloc: Global, disk: D) -> Result<Server<D>, OpenRefusal<D>>
        ensures opened { Told (D.content disk) (λ b. IfOk result (Opened b)) }
        ensures open_ { IfOk result (λ s. is_closed s ≡ false) }
        ensures bad { Told (D.content disk) (λ b. IfErr result (λ e. (place : ℕ) → e.cause ≡ OpenCause.BadFile place → BadPlace b place)) }
        ensures kept { Told (D.content disk) (λ b. IfErr result (λ e. (place : ℕ) → e.cause ≡ OpenCause.BadFile place → D.content e.disk ≡ Some b)) }

        // Where each crash before would have left the same records, each crash since its start leaves them.
        ensures any_moment { (records : List (List ℕ)) → Told (D.content disk) (λ b. ((c : List ℕ) → D.images disk c → records_of c ≡ Good records)
            → IfOk result (λ s. LeavesOnly D.moment D.images_since disk (disk_of (journal_of s)) (λ c. records_of c ≡ Good records))) }
        ensures any_moment_err { (records : List (List ℕ)) → Told (D.content disk) (λ b. ((c : List ℕ) → D.images disk c → records_of c ≡ Good records)
            → IfErr result (λ e. LeavesOnly D.moment D.images_since disk e.disk (λ c. records_of c ≡ Good records))) }

        // The disk: what no call changes, and the cause of a fault.
        ensures origin { IfOk result (λ s. D.origin (disk_of (journal_of s)) ≡ D.origin disk) }
        ensures origin_err { IfErr result (λ e. D.origin e.disk ≡ D.origin disk) }
        ensures later { IfOk result (λ s. D.faults disk ≤ D.faults (disk_of (journal_of s))) }
        ensures later_err { IfErr result (λ e. D.faults disk ≤ D.faults e.disk) }
        ensures fault { IfErr result (λ e. e.cause ≡ OpenCause.DiskFault → Rose (D.faults disk) (D.faults e.disk)) }
        ensures sound { Told (D.content disk) (λ b. IsSound (D.origin disk) → IfErr result (λ e. e.cause ≡ OpenCause.DiskFault → ⊥)) }
    {
        let (journal, records) = Journal::open(alloc, disk)?;
        match Kept::of(alloc, &records) {
            Ok(kept) => Ok(Server {
                alloc,
                journal,
                kept,
            }),
            Err(why) => Err(journal.unread(&records, why)),
        }
    }

    /// The same server over a disk that gathers: from then on `land` of its journal brings the records of its
    /// calls to the disk.
    pub fn gathered(self) -> Server<GatheredDisk<D>>
        ensures landed { (records : List (List ℕ)) → Stands records (journal_of self) → IsLanded records (journal_of result) }
        ensures below { below (disk_of (journal_of result)) ≡ disk_of (journal_of self) }
        ensures kept { kept_of result ≡ kept_of self }
        ensures closed { is_closed result ≡ is_closed self }
    {
        Server {
            alloc: self.alloc,
            journal: self.journal.gathered(),
            kept: self.kept,
        }
    }
}
