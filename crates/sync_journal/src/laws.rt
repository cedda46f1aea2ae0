// What follows for a disk that stops, from the strokes that a call asked for.
ghost use Rattle.std.specs.Prelude.{◌≡◌, ℕ, ◌+◌, ◌*◌, ◌<◌, ◌≤◌, ◌++◌, List, length, take, Some, None};
ghost use Rattle.sync_disk.specs.Images.{state};
ghost use Rattle.sync_disk.specs.Leaving.{left_by};
ghost use Rattle.sync_journal.specs.Journal.{IsSettled};
ghost use Rattle.sync_journal.specs.Records.{records_of};
ghost use Rattle.sync_journal.specs.Records.Reading.{Good};
ghost use Rattle.sync_journal.specs.Several.{AsksAll, AsksPart};
ghost use Rattle.sync_journal.specs.Stopping.{standing};

use sync_disk::Disk;

/// The rule for a stop in a call that appends several records, on a disk of which no call is set to fail. Where it
/// isn't armed the call isn't cut. Where it is, the call is done exactly where the stop lies behind its strokes, four
/// for each record; where the call is cut, a crash leaves the records before the stop, and that in which it stopped
/// where its gate was written and is kept.
pub fn stops_tell<D: Disk>()
    ensures never { (next : List (List ℕ)) (end : ℕ) (old new : D) (b : List ℕ) → D.content new ≡ Some b → (D.origin new).listed ≡ 0 → (D.origin new).stop ≡ None
        → AsksPart next end (D.strokes old) (D.strokes new) → ⊥ }
    ensures passed { (next : List (List ℕ)) (end now at : ℕ) (old new : D) (b : List ℕ) → D.content new ≡ Some b → (D.origin new).listed ≡ 0
        → (D.origin new).stop ≡ Some (length (D.strokes old) + at) → AsksAll next end now (D.strokes old) (D.strokes new)
        → (4 * length next ≤ at) × (length (D.strokes new) ≡ length (D.strokes old) + 4 * length next) }
    ensures stopped { (records next : List (List ℕ)) (end at : ℕ) (old new : D) (b : List ℕ) → IsSettled D.content D.images records end old → D.content new ≡ Some b
        → D.origin new ≡ D.origin old → (D.origin old).listed ≡ 0 → (D.origin old).stop ≡ Some (length (D.strokes old) + at)
        → AsksPart next end (D.strokes old) (D.strokes new)
        → (at < 4 * length next) × (records_of (left_by (D.origin old).leaves (state (D.origin old).start (D.strokes new))) ≡ Good (records ++ take (standing (D.origin old).leaves at) next)) }
{}
