ghost use Rattle.std.specs.Prelude.{◌≡◌, ◌++◌, ℕ, ◌≤◌, List, Option, Result, Ok, None, Some, Err, IfErr, IfOk, OnOk, map};
ghost use Rattle.sync_disk.specs.Disk.{LeavesOnly, Rose, Told};
ghost use Rattle.sync_disk.specs.Origin.{Origin};
ghost use Rattle.sync_journal.specs.Landed.{StandsForEither};
ghost use Rattle.sync_journal.specs.Records.{records_of};
ghost use Rattle.sync_journal.specs.Records.Reading.{Good};
ghost use Rattle.sync_node.specs.Opening.{IsOpenStatus, OpensNode};
ghost use Rattle.sync_node.specs.Runs.{Answer, AnswersSo, DiskHolds, IsTold};
ghost use Rattle.sync_node.specs.declared.command.ItemEnd.{ItemEnd};

use super::opening::Ended;
use std::alloc::Global;
use sync_disk::{Disk, DiskRefusal};
use sync_io::Status;

/// Why a run ends at an item.
#[derive(Clone, Copy, PartialEq, Eq)]
pub enum ItemEnd {
    /// The item is none of the command's.
    BadItem,
    /// The disk failed. The command isn't used again.
    DiskFault,
    /// Memory ran out. The command isn't used again.
    NoMemory,
}

/// A command of a node over a file: it answers item after item, and gathers the records of its answers until it lands them.
pub trait Command<D: Disk>: Drop {
    /// The records of the node.
    ghost Record: { Type 0 };

    /// The bytes of one.
    ghost bytes_of: { Record → List ℕ };

    /// The records of a file, or the place at which the bytes are no journal of the node.
    ghost file_of: { List ℕ → Result (List Record) ℕ };

    /// What is kept of the items before.
    ghost Notes: { Type 0 };

    /// What is kept before the first.
    ghost first: { Notes };

    /// What is kept behind an item, where these notes and records stood before it.
    ghost noted: { Notes → List Record → List ℕ → Notes };

    /// What answers the item of this number over these records, or None where the item is none of the command's.
    ghost step: { Notes → List Record → ℕ → List ℕ → Option (Answer Record) };

    /// These notes are kept, and the node is open and has these records.
    ghost Stands: { Self → Notes → List Record → Type 0 };

    /// The disk holds these records, whatever is gathered.
    ghost Holds: { Self → List Record → Type 0 };

    /// The disk.
    ghost disk_below: { Self → D };

    /// What nothing changes but a landing.
    ghost origin: { Self → Origin };

    /// Opens the node of a disk.
    fn open_file(alloc: Global, disk: D) -> Result<Self, Ended<D>>
        // The node of the records for which the content stands, or the place at which it is no journal of the node.
        ensures opened { Told (D.content disk) (λ b. IfOk result (λ command. OpensNode file_of (Stands command first) (Holds command) b)) }
        ensures bad_file { Told (D.content disk) (λ b. IfErr result (λ e. (place : ℕ) → e.status ≡ Status.BadFile place → file_of b ≡ Err place)) }
        ensures kept { Told (D.content disk) (λ b. IfErr result (λ e. (place : ℕ) → e.status ≡ Status.BadFile place → D.content e.disk ≡ Some b)) }
        ensures only { IfErr result (λ e. IsOpenStatus e.status) }

        // Where each crash before would have left the same records, each crash since its start leaves them.
        ensures any_moment_err { (records : List (List ℕ)) → Told (D.content disk) (λ b. ((c : List ℕ) → D.images disk c → records_of c ≡ Good records)
            → IfErr result (λ e. LeavesOnly D.moment D.images_since disk e.disk (λ c. records_of c ≡ Good records))) }

        // The disk: the loan, which no call changes, and the cause of a fault.
        ensures loan { IfOk result (λ command. (D.origin (disk_below command)).listed ≡ (D.origin disk).listed) }
        ensures loan_err { IfErr result (λ e. (D.origin e.disk).listed ≡ (D.origin disk).listed) }
        ensures later { IfOk result (λ command. D.faults disk ≤ D.faults (disk_below command)) }
        ensures later_err { IfErr result (λ e. D.faults disk ≤ D.faults e.disk) }
        ensures fault { IfErr result (λ e. e.status ≡ Status.DiskFault → Rose (D.faults disk) (D.faults e.disk)) };

    /// Answers the item of this number.
    fn answer(&mut self, number: u32, item: &[u8]) -> Result<Vec<u8>, ItemEnd>
        // The answer is the step's, and the node has the step's records too.
        ensures done { (notes : Notes) (records : List Record) → Stands self.old notes records
            → IfOk result (λ text. AnswersSo (step notes records number item.now) records text.items (Stands self.new (noted notes records item.now))) }
        // An item that is none of the command's changes nothing.
        ensures bad { (notes : Notes) (records : List Record) → Stands self.old notes records → result ≡ Err ItemEnd.BadItem
            → (step notes records number item.now ≡ None) × Stands self.new notes records }
        ensures same { origin self.new ≡ origin self.old }
        // A fault is the disk's.
        ensures later { D.faults (disk_below self.old) ≤ D.faults (disk_below self.new) }
        ensures cause { result ≡ Err ItemEnd.DiskFault → Rose (D.faults (disk_below self.old)) (D.faults (disk_below self.new)) };

    /// Brings what was gathered to the disk, in four strokes at most. After an `Err` the command isn't used again.
    fn land_records(&mut self) -> Result<(), DiskRefusal>
        // At `Ok` all records are on the disk. A crash leaves those before or all.
        ensures landed { (notes : Notes) (records : List Record) → Stands self.old notes records → OnOk result (Stands self.new notes records × Holds self.new records) }
        ensures leaves { (notes : Notes) (olds all : List Record) → Holds self.old olds → Stands self.old notes all → (image : List ℕ) → D.images (disk_below self.new) image
            → StandsForEither (map bytes_of olds) (map bytes_of all) image }
        ensures loan { (D.origin (disk_below self.new)).listed ≡ (D.origin (disk_below self.old)).listed }
        ensures later { D.faults (disk_below self.old) ≤ D.faults (disk_below self.new) }
        ensures cause { result ≡ Err DiskRefusal.Failed → Rose (D.faults (disk_below self.old)) (D.faults (disk_below self.new)) };

    /// Hands the disk back.
    fn close(self) -> D
        ensures { result ≡ disk_below self };

    /// An answer that says nothing adds no record.
    ghost says: { (notes : Notes) (records : List Record) (number : ℕ) (item : List ℕ) (answer : Answer Record) → step notes records number item ≡ Some answer
        → IsTold answer };

    /// What the disk holds is there after a crash too.
    ghost held: { (command : Self) (records : List Record) → Holds command records → DiskHolds D.content D.images bytes_of records (disk_below command) };

    /// What is gathered doesn't come to the disk, and the loan stays.
    ghost holds_still: { (old new : Self) (records : List Record) → origin new ≡ origin old → Holds old records → Holds new records };

    ghost loan_stays: { (old new : Self) → origin new ≡ origin old → (D.origin (disk_below new)).listed ≡ (D.origin (disk_below old)).listed };
}
