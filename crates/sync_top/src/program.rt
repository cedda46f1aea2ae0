ghost use Rattle.std.specs.Prelude.{◌≡◌, ◌≢◌, ◌≤◌, ◌↔◌, ℕ, List, [], IfSome, count_by, map, string_bytes};
ghost use Rattle.sync_disk.specs.Disk.{Rose, Told};
ghost use Rattle.sync_io.specs.Faults.{HasRisen};
ghost use Rattle.sync_io.specs.Readers.{readings};
ghost use Rattle.sync_io.specs.Reading.{Reading};
ghost use Rattle.sync_model.specs.Worlds as model;
ghost use Rattle.sync_world.specs.Holding.{Holds};
ghost use Rattle.sync_node.specs.FileCommands.{Does, IsFileFor, IsInputFor, ReadsNothing};
ghost use Rattle.sync_top.specs.Exchange.{IsValidInput, answers, events_of, report};
ghost use Rattle.gen_law.specs.Ends.{AllCaughtUp};
ghost use Rattle.gen_law.specs.Generated.{events_of as drawn_events, words_by, world_by};
ghost use Rattle.gen_law.specs.Refusals.{is_refused};
ghost use Rattle.sync_top.specs.Jobs.{AsksFor};
ghost use Rattle.sync_top.specs.Playing.{Writes};
ghost use Rattle.sync_top.specs.Recoveries.{SavesAtAnyEnd};
ghost use Rattle.sync_node.specs.Texts.{IsDoneOrNoMemory};
ghost use Rattle.sync_top.specs.Runs.{FollowsTold, Leaves, Passes, run_from, runs};
ghost use Rattle.sync_top.specs.Shrinks.{ShrinksAlike};
ghost use Rattle.sync_top.specs.Statuses.{IsJobStatus};
ghost use Rattle.sync_top.specs.Summaries.{equal_in, summary_of};
ghost use Rattle.sync_top.specs.Synced.{IsSynced, first};
ghost use Rattle.sync_top.specs.Trims.{ServesOwn, TrimsAlike};

use super::generated::generate;
use super::job::{Job, job_of};
use super::laws::{exchanges_hold, generated_end_equal, recoveries_hold, shrinks_hold, trims_hold};
use super::lines::run_lines;
use gen_law::generated_exchanges_refuse_nothing;
use std::alloc::Global;
use sync_disk::Disk;
use sync_io::{Sink, Source, Status};
use sync_node::{FileCommand, run_file};
use sync_world::World;

/// One run of the program: its words, its input, its output, the disk of the file that it names, and the exchange in which it
/// runs, which is as `World::new` made it (docs/FORMATS.md, "Commands").
pub fn run<S: Source, K: Sink, D: Disk>(
    alloc: Global,
    words: &[String],
    source: &mut S,
    sink: &mut K,
    disk: &mut D,
    world: &mut World,
) -> Status
    requires { Holds model.empty_world world.old }

    // Words that are no command: nothing is read, written or done.
    ensures words { (result ≡ Status.BadWords) ↔ ((job : Job) → AsksFor job (map string_bytes words.now) → ⊥) }
    ensures untouched { result ≡ Status.BadWords → (source.new ≡ source.old) × (sink.new ≡ sink.old) × (disk.new ≡ disk.old) × (world.new ≡ world.old) }

    // What is written, and the status, are the replay's of the bytes; after a fault and out of memory a part, from its front.
    ensures replay { AsksFor Job.Replay (map string_bytes words.now)
        → FollowsTold result (runs answers report 0 (readings 0 [] (S.left source.old)) model.empty_world) (K.taken sink.old) (K.taken sink.new) }

    // The exchange that is left is the replay's after all events that were read. After a fault it is that after the events of
    // some lines from the front, and only answers to these were written. Nothing is said after out of memory.
    ensures world { AsksFor Job.Replay (map string_bytes words.now)
        → Leaves answers report (λ w. Holds w world.new) result (readings 0 [] (S.left source.old)) model.empty_world (K.taken sink.old) (K.taken sink.new) }

    // The headline holds of it.
    ensures headline { AsksFor Job.Replay (map string_bytes words.now)
        → IfSome (readings 0 [] (S.left source.old)) (λ reading. IsSynced (events_of reading) (run_from answers report 0 reading model.empty_world).left) }
    ensures headline_after_faults { AsksFor Job.Replay (map string_bytes words.now)
        → IfSome (readings 0 [] (S.left source.old)) (λ reading. (lines : ℕ) (text : List ℕ) (w : model.World) (rest : Reading) → Passes answers lines reading model.empty_world text w rest → IsSynced (events_of (first lines reading)) w) }

    // What is written of a generated exchange is the summary of the seed's events; what is left is the exchange after them.
    ensures generated { (seed count : ℕ) → AsksFor (Job.Generate seed count) (map string_bytes words.now)
        → Writes (summary_of seed count) result (K.taken sink.old) (K.taken sink.new) }
    ensures generates { (seed count : ℕ) → AsksFor (Job.Generate seed count) (map string_bytes words.now) → result ≢ Status.NoMemory
        → Holds (world_by model.empty_world (drawn_events seed count)) world.new }

    // The headline holds of it too.
    ensures generated_headline { (seed count : ℕ) → AsksFor (Job.Generate seed count) (map string_bytes words.now)
        → IsSynced (drawn_events seed count) (world_by model.empty_world (drawn_events seed count)) }

    // In the end all eight clients have the whole history, nothing unsent and the server's objects: `equal` is written as 8.
    ensures caught_up { (seed count : ℕ) → AsksFor (Job.Generate seed count) (map string_bytes words.now)
        → AllCaughtUp (world_by model.empty_world (drawn_events seed count)) }
    ensures equal { (seed count : ℕ) → AsksFor (Job.Generate seed count) (map string_bytes words.now)
        → equal_in (world_by model.empty_world (drawn_events seed count)) ≡ 8 }

    // On the way no event of it is refused and no reply refuses: the number written as `refused` is 0.
    ensures refused { (seed count : ℕ) → AsksFor (Job.Generate seed count) (map string_bytes words.now)
        → count_by is_refused (words_by model.empty_world (drawn_events seed count)) ≡ 0 }

    // A command over a file does what is written of it.
    ensures file { (command : FileCommand) → AsksFor (Job.File command) (map string_bytes words.now)
        → Does D.content D.images D.moment D.images_since command (S.left source.old) result disk.old disk.new (K.taken sink.old) (K.taken sink.new) }

    // Over the file that `trim` writes, `serve` answers as over the whole one, up to the first message that reaches below the
    // floor. A file that a server wrote itself stays so: that is all that `trims` asks of it.
    ensures trims { AsksFor (Job.File FileCommand.Trim) (map string_bytes words.now) → TrimsAlike (D.content disk.old) }
    ensures own { AsksFor (Job.File FileCommand.Serve) (map string_bytes words.now) → ServesOwn (D.content disk.old) (S.left source.old) }

    // Over the file that `shrink` writes a client answers as over its own, whatever is done with both.
    ensures shrinks { AsksFor (Job.File FileCommand.Shrink) (map string_bytes words.now) → ShrinksAlike (D.content disk.old) }

    // An heir's file: however runs are repeated and wherever this one ends, no change of the old client is saved twice, or both saved and
    // integrated. Once the heir has them all, each is integrated, or saved without what is listed as dropped.
    ensures saves { (command : FileCommand) → AsksFor (Job.File command) (map string_bytes words.now)
        → SavesAtAnyEnd D.content D.images command (S.left source.old) disk.old disk.new }

    // What isn't the command's stays as it was.
    ensures disk_aside { AsksFor Job.Replay (map string_bytes words.now) → disk.new ≡ disk.old }
    ensures all_aside { (seed count : ℕ) → AsksFor (Job.Generate seed count) (map string_bytes words.now) → (source.new ≡ source.old) × (disk.new ≡ disk.old) }
    ensures world_aside { (command : FileCommand) → AsksFor (Job.File command) (map string_bytes words.now) → world.new ≡ world.old }
    ensures unread { (command : FileCommand) → AsksFor (Job.File command) (map string_bytes words.now) → ReadsNothing command → source.new ≡ source.old }

    // Where the file is bad, nothing is read or written, whether the disk tells what it holds or not.
    ensures bad_untouched { (place : ℕ) → result ≡ Status.BadFile place → (source.new ≡ source.old) × (sink.new ≡ sink.old) }

    // Each fault has its cause.
    ensures source_faults { S.faults source.old ≤ S.faults source.new }
    ensures sink_faults { K.faults sink.old ≤ K.faults sink.new }
    ensures disk_faults { D.faults disk.old ≤ D.faults disk.new }
    ensures read_cause { result ≡ Status.ReadFault → HasRisen (S.faults source.old) (S.faults source.new) }
    ensures write_cause { result ≡ Status.WriteFault → HasRisen (K.faults sink.old) (K.faults sink.new) }
    ensures disk_cause { result ≡ Status.DiskFault → Rose (D.faults disk.old) (D.faults disk.new) }
    ensures only { (job : Job) → AsksFor job (map string_bytes words.now) → IsJobStatus job result }

    // With valid input, over a file of the command's node and without a fault, the run is done, or memory ran out.
    ensures complete { AsksFor Job.Replay (map string_bytes words.now) → IsValidInput (S.left source.old)
        → (HasRisen (S.faults source.old) (S.faults source.new) → ⊥)
        → (HasRisen (K.faults sink.old) (K.faults sink.new) → ⊥) → IsDoneOrNoMemory result }
    ensures complete_generate { (seed count : ℕ) → AsksFor (Job.Generate seed count) (map string_bytes words.now)
        → (HasRisen (K.faults sink.old) (K.faults sink.new) → ⊥) → IsDoneOrNoMemory result }
    ensures complete_file { (command : FileCommand) → AsksFor (Job.File command) (map string_bytes words.now)
        → Told (D.content disk.old) (λ b. IsFileFor command b → IsInputFor command (S.left source.old)
        → (HasRisen (S.faults source.old) (S.faults source.new) → ⊥)
        → (HasRisen (K.faults sink.old) (K.faults sink.new) → ⊥)
        → (Rose (D.faults disk.old) (D.faults disk.new) → ⊥) → IsDoneOrNoMemory result) }
{
    let job = match job_of(words) {
        Some(job) => job,
        None => return Status::BadWords,
    };
    match job {
        Job::Replay => {
            exchanges_hold();
            run_lines(alloc, source, sink, world)
        }
        Job::Generate { seed, count } => {
            exchanges_hold();
            generated_end_equal();
            generated_exchanges_refuse_nothing();
            generate(alloc, seed, count, sink, world)
        }
        Job::File { command } => {
            trims_hold();
            shrinks_hold();
            recoveries_hold();
            run_file(alloc, command, source, sink, disk)
        }
    }
}
