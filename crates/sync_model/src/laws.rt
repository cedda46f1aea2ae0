ghost use Rattle.std.specs.Prelude.{Bool, Err, IfOk, List, None, Ok, Option, Some, [], drop, false, length, map, take, true, ◌++◌, ◌+◌, ◌-◌, ◌*◌, ◌<◌, ◌≤◌, ◌≢◌, ◌⊎◌, ℕ, ◌≡◌};
ghost use Rattle.std.specs.List.{list_any};
ghost use Rattle.sync_theory.specs.Changesets.{Changeset};
ghost use Rattle.sync_model.specs.Bytes.{Bytes, Name, Tables, Uuid};
ghost use Rattle.sync_model.specs.Clients.{ClientRecord, ClientRefusal, ask, bind, born, client_of, commit, last, no_client, subscribe, take as take_message, upgrade, upload, upload_from};
ghost use Rattle.sync_model.specs.Files.{FilesOpen, is_growing, client_opens, client_reads, server_admits, server_opens, server_reads};
ghost use Rattle.sync_model.specs.Harmless.{AreHarmless, IsHarmless, IsHarmlessEvent, in_turn, made_by_event};
ghost use Rattle.sync_model.specs.Later.{IsLater, Later, LaterEvent, LaterFacts, all_later, first_later, later};
ghost use Rattle.sync_model.specs.Limits.{ClientLists, ClientNumbers, CrossSmall, IsClientRecord, IsMessage, IsServerRecord, ServerLists, ServerNumbers, WorldNumbers};
ghost use Rattle.sync_model.specs.Each.{Each};
ghost use Rattle.sync_model.specs.Log.{Stands, WorldFacts, ident_of, log, subset_of};
ghost use Rattle.sync_model.specs.Messages.{Change, Message, Retire, Retired};
ghost use Rattle.sync_model.specs.Parts.{Given, Parts, admits_part, after_parts, as_before, ask_by, at_ident, given_of, marking_by, merge_by, merged_of, no_parts, parts_of, parts_open, serve_by, served_of};
ghost use Rattle.sync_model.specs.Profile.{cross_changesets, only_by};
ghost use Rattle.sync_model.specs.Progress.{AllCurrent, AnyArmed, AnyBelow, AnyOld, AnyUnnamed, AreBorne, Comes, Gets, HasCaughtUp, IsAbove, IsArmed, IsBelow, IsBelowFloor, IsCalm, IsCurrent, IsException, IsQuiet, IsRoomy, after_events, after_turns, all_catch_up, catches_up, enough, enough_for_all, lacks, later_outcomes, rounds, turns};
ghost use Rattle.sync_model.specs.Recovery.{CountIsFinal, HeirMove, IsRecovery, KeepsFinal, ListsDrops, StopsAt, SavesNow, SavesOnce, heir_after, numbers_from, numbers_of, whole_history};
ghost use Rattle.sync_model.specs.Rescues.{IsHeldUp, LivesOn, RunsAs, after_runs};
ghost use Rattle.sync_model.specs.Reports.{report_by_log, report_of};
ghost use Rattle.sync_model.specs.Resets.{ByClient, Known, SavedAs, heir, heir_says, recover};
ghost use Rattle.sync_model.specs.Servers.{IdentRetired, ServerRecord, ServerStep, Trimmed, count, heir_of, is_given, merge, no_server, refuses, serve, server_objects, server_of};
ghost use Rattle.sync_model.specs.Snapshots.{grown};
ghost use Rattle.sync_model.specs.Starts.{started, started_client};
ghost use Rattle.sync_model.specs.Trimmed.{KeptBy, TrimsAlike, trim_records};
ghost use Rattle.sync_model.specs.Fronts.{file_gives};
ghost use Rattle.sync_model.specs.Trims.{BelowFloor, KeptLess, Spans, is_trimmed, kept_after, next_floor, replies_by, trimmed};
ghost use Rattle.sync_model.specs.Worlds.{ClientsGrow, Delivers, Edits, Event, IsReached, Made, Node, World, at, empty_world, happens, outcomes, server_name, world_after};

use super::exchange::Exchange;

/// Whatever events come, whatever is lost, repeated, late or injected, and wherever a node stops: every world that
/// they make of the empty one has these facts, its nodes report what the log gives, opening accepts their records,
/// no record changes once it stands, and a transaction that was acknowledged stands at its number for ever.
pub fn worlds_hold<E: Exchange>()
    ensures first { IsReached E.profile empty_world }
    ensures steps { (w : World) (e : Event E.Instr) → IsReached E.profile w → IsReached E.profile (happens E.profile w e).world }
    ensures facts { (w : World) → IsReached E.profile w → WorldFacts E.profile E.Fits w }
    ensures reports { (w : World) → IsReached E.profile w → report_of E.profile w ≡ report_by_log E.profile w }
    ensures opens { (w : World) → IsReached E.profile w → FilesOpen E.profile w }
    ensures grows { (w : World) (es : List (Event E.Instr)) → ClientsGrow w (world_after E.profile w es) }
    ensures acknowledged { (w : World) (name : Name) (ms number : ℕ) (edits : List E.Instr) (es : List (Event E.Instr))
        → (happens E.profile w (Edits name ms edits)).words ≡ Made number
        → Stands E.profile (world_after E.profile (happens E.profile w (Edits name ms edits)).world es) name number ms edits }
{}

/// A server that keeps its history, objects and what it knows of each ident, and answers by these, answers each
/// message as one that reads its records, and keeps what the records after the answer stand for.
pub fn servers_answer_by_parts<E: Exchange>()
    ensures change { (records : List ServerRecord) (c : ℕ) (h : Change) (uuid : Uuid) → server_opens E.profile no_server records ≡ true
        → is_given (server_of E.profile records) c ≡ true → count (server_of E.profile records) c < h.number
        → merge_by E.profile (parts_of E.profile (server_of E.profile records)) c (given_of E.profile (server_of E.profile records) c uuid) h ≡ merged_of E.profile (server_of E.profile records) (merge E.profile (server_of E.profile records) c h) }
    ensures given { (records : List ServerRecord) (c : ℕ) → is_given (server_of E.profile records) c ≡ true
        → (uuid : Uuid) × (at_ident c (parts_of E.profile (server_of E.profile records)).idents ≡ Some (given_of E.profile (server_of E.profile records) c uuid)) }
    ensures not_given { (records : List ServerRecord) (c : ℕ) → is_given (server_of E.profile records) c ≡ false
        → at_ident c (parts_of E.profile (server_of E.profile records)).idents ≡ None }
    ensures message { (records : List ServerRecord) (m : Message) → server_opens E.profile no_server records ≡ true
        → serve_by E.profile (parts_of E.profile (server_of E.profile records)) m ≡ served_of E.profile (server_of E.profile records) (serve E.profile (server_of E.profile records) m) }
    ensures records { (records : List ServerRecord) → server_opens E.profile no_server records ≡ true
        → after_parts E.profile (no_parts E.profile) records ≡ parts_of E.profile (server_of E.profile records) }
    ensures admits { (records : List ServerRecord) (r : ServerRecord) → server_opens E.profile no_server records ≡ true
        → admits_part E.profile (parts_of E.profile (server_of E.profile records)) r ≡ server_admits E.profile (server_of E.profile records) r }
    ensures opens { (records : List ServerRecord) → parts_open E.profile (no_parts E.profile) records ≡ server_opens E.profile no_server records }
    ensures spans { (records : List ServerRecord) → server_opens E.profile no_server records ≡ true → Spans (parts_of E.profile (server_of E.profile records)) }
    ensures writes { (kept : Parts E.Instr E.State) (m : Message) (n : ℕ) → parts_open E.profile kept (take n (serve_by E.profile kept m).records) ≡ true }
    ensures carries_on { (kept : Parts E.Instr E.State) (m : Message) → after_parts E.profile kept (serve_by E.profile kept m).records ≡ (serve_by E.profile kept m).parts }
{}

/// A server that gave up its history before a floor answers every list of messages as the one with the longer history,
/// up to the first that it refuses by code 71, and keeps the same otherwise. It refuses by that code exactly what begins
/// below its floor.
pub fn trimmed_servers_answer_alike<E: Exchange>()
    ensures trims { (kept : Parts E.Instr E.State) → Spans kept → KeptLess kept (trimmed E.profile kept) × Spans (trimmed E.profile kept) }
    ensures floor { (kept : Parts E.Instr E.State) → Spans kept → (kept.floor ≤ next_floor kept) × (next_floor kept ≤ kept.len) }
    ensures goes_on { (kept : Parts E.Instr E.State) (m : Message) → Spans kept → Spans (serve_by E.profile kept m).parts }
    ensures alike { (whole less : Parts E.Instr E.State) (ms : List Message) → KeptLess whole less → list_any is_trimmed (replies_by E.profile less ms) ≡ false
        → (replies_by E.profile less ms ≡ replies_by E.profile whole ms) × KeptLess (kept_after E.profile whole ms) (kept_after E.profile less ms) }
    ensures records { (whole less : Parts E.Instr E.State) (m : Message) → KeptLess whole less → is_trimmed (serve_by E.profile less m).answer ≡ false
        → (serve_by E.profile less m).records ≡ (serve_by E.profile whole m).records }
    ensures below { (kept : Parts E.Instr E.State) (c : ℕ) (g : Given E.Instr) (h : Change) → BelowFloor kept g h → merge_by E.profile kept c g h ≡ Err (Trimmed kept.floor) }
    ensures only_below { (kept : Parts E.Instr E.State) (c : ℕ) (g : Given E.Instr) (h : Change) (n : ℕ) → merge_by E.profile kept c g h ≡ Err (Trimmed n) → (n ≡ kept.floor) × BelowFloor kept g h }
    ensures ask_below { (kept : Parts E.Instr E.State) (c cursor settled : ℕ) (g : Given E.Instr) (go : List (Changeset E.Instr) → ServerStep) → cursor ≤ kept.len → cursor < kept.floor
        → ask_by kept c cursor settled (Some g) go ≡ as_before kept (refuses c 0 (Trimmed kept.floor)) }
    ensures ask_above { (kept : Parts E.Instr E.State) (c cursor settled : ℕ) (g : Given E.Instr) (go : List (Changeset E.Instr) → ServerStep) → cursor ≤ kept.len → kept.floor ≤ cursor
        → ask_by kept c cursor settled (Some g) go ≡ marking_by kept c g.mark cursor settled (go (drop (cursor - kept.floor) kept.entries)).answer }
{}

/// A server's file gives what the server keeps: one with its whole history, and one that trimming wrote, with what the
/// server appended since. Over a file and over its trimmed one a server gives the same replies, lengths and objects, for
/// every list of messages up to the first that the second refuses by code 71.
pub fn server_files_give_what_is_kept<E: Exchange>()
    ensures whole { (records : List ServerRecord) → parts_open E.profile (no_parts E.profile) records ≡ true
        → file_gives E.profile (map (λ r. Some r) records) ≡ Ok (after_parts E.profile (no_parts E.profile) records) }
    ensures kept { (records : List ServerRecord) → parts_open E.profile (no_parts E.profile) records ≡ true → KeptBy E.profile (after_parts E.profile (no_parts E.profile) records) }
    ensures goes_on { (kept : Parts E.Instr E.State) (m : Message) → KeptBy E.profile kept → KeptBy E.profile (serve_by E.profile kept m).parts }
    ensures spans { (kept : Parts E.Instr E.State) → KeptBy E.profile kept → Spans kept }
    ensures trimmed { (kept : Parts E.Instr E.State) (more : List ServerRecord) → KeptBy E.profile kept → parts_open E.profile (trimmed E.profile kept) more ≡ true
        → file_gives E.profile (map (λ r. Some r) (trim_records E.profile kept ++ more)) ≡ Ok (after_parts E.profile (trimmed E.profile kept) more) }
    ensures back { (read : Bytes → Option ServerRecord) (bytes : ServerRecord → Bytes) (kept : Parts E.Instr E.State) (more : List ServerRecord)
        → KeptBy E.profile kept → parts_open E.profile (trimmed E.profile kept) more ≡ true → Each (λ r. read (bytes r) ≡ Some r) (trim_records E.profile kept ++ more)
        → file_gives E.profile (map read (map bytes (trim_records E.profile kept ++ more))) ≡ Ok (after_parts E.profile (trimmed E.profile kept) more) }
    ensures alike { (kept : Parts E.Instr E.State) (ms : List Message) → KeptBy E.profile kept → list_any is_trimmed (replies_by E.profile (trimmed E.profile kept) ms) ≡ false
        → TrimsAlike E.profile kept ms }
{}

/// Whatever events come, and however often the server's file is replaced by one without the history before its next
/// floor and clients begin with the server's objects: all facts of worlds hold, by the log of all records that the
/// server ever wrote. What it keeps is what that log gives from its floor on, and it refuses what a client made by a named
/// rule or by its floor.
pub fn later_worlds_hold<E: Exchange>()
    ensures first { IsLater E.profile (first_later E.profile) }
    ensures steps { (l : Later E.Instr E.State) (e : LaterEvent E.Instr) → IsLater E.profile l → IsLater E.profile (later E.profile l e) }
    ensures facts { (l : Later E.Instr E.State) → IsLater E.profile l → LaterFacts E.profile E.Fits l }
{}

/// A client that begins with the server's objects has them, the length of the history as its cursor, nothing unsent and
/// no ident; opening accepts its records. What holds of it in every later exchange is among the facts of worlds.
pub fn started_clients_have_the_objects<E: Exchange>()
    ensures starts { (w : World) (id : Uuid) → IsReached E.profile w
        → client_of E.profile (started E.profile id (server_of E.profile w.server).second (length (server_of E.profile w.server).log) (server_objects E.profile (server_of E.profile w.server)))
        ≡ started_client E.profile id (server_of E.profile w.server).second (length (server_of E.profile w.server).log) (server_objects E.profile (server_of E.profile w.server)) }
    ensures opens { (w : World) (id : Uuid) → IsReached E.profile w
        → client_opens E.profile (no_client E.profile) (started E.profile id (server_of E.profile w.server).second (length (server_of E.profile w.server).log) (server_objects E.profile (server_of E.profile w.server))) ≡ true }
    ensures grown { (s : E.State) → E.Fits s → E.Bounded s → grown E.profile (E.profile.build s) ≡ Ok s }
{}

/// Opening accepts what a node appends, after what it accepted before, and any beginning of it. A client whose records
/// opening accepts doesn't wait for the rest of the state with which its file begins.
pub fn nodes_write_what_opens<E: Exchange>()
    ensures born { (records : List ClientRecord) (id : Uuid) (n : ℕ) → client_opens E.profile (no_client E.profile) records ≡ true
        → client_opens E.profile (no_client E.profile) (records ++ take n (born (client_of E.profile records) id).records) ≡ true }
    ensures commit { (records : List ClientRecord) (ms : ℕ) (edits : List E.Instr) (n : ℕ) → client_opens E.profile (no_client E.profile) records ≡ true
        → client_opens E.profile (no_client E.profile) (records ++ take n (commit E.profile (client_of E.profile records) ms edits).records) ≡ true }
    ensures upgrade { (records : List ClientRecord) (n : ℕ) → client_opens E.profile (no_client E.profile) records ≡ true
        → client_opens E.profile (no_client E.profile) (records ++ take n (upgrade (client_of E.profile records)).records) ≡ true }
    ensures subscribe { (records : List ClientRecord) (tables : Tables) (n : ℕ) → client_opens E.profile (no_client E.profile) records ≡ true
        → client_opens E.profile (no_client E.profile) (records ++ take n (subscribe (client_of E.profile records) tables).records) ≡ true }
    ensures taken { (records : List ClientRecord) (m : Message) (n : ℕ) → IsMessage E.profile m → client_opens E.profile (no_client E.profile) records ≡ true
        → client_opens E.profile (no_client E.profile) (records ++ take n (take_message E.profile (client_of E.profile records) m).records) ≡ true }
    ensures served { (records : List ServerRecord) (m : Message) (n : ℕ) → server_opens E.profile no_server records ≡ true
        → server_opens E.profile no_server (records ++ take n (serve E.profile (server_of E.profile records) m).records) ≡ true }
    ensures saved { (records : List ClientRecord) (by count : ℕ) (h : Change) (n : ℕ) → client_opens E.profile (no_client E.profile) records ≡ true
        → client_opens E.profile (no_client E.profile) (records ++ take n (heir E.profile (client_of E.profile records) by count h).records) ≡ true }
    ensures recovered { (records : List ClientRecord) (frames : List Message) (n : ℕ) → client_opens E.profile (no_client E.profile) records ≡ true
        → client_opens E.profile (no_client E.profile) (records ++ take n (recover E.profile (client_of E.profile records) frames).records) ≡ true }
    ensures complete { (records : List ClientRecord) → client_opens E.profile (no_client E.profile) records ≡ true
        → is_growing (client_of E.profile records) ≡ false }
{}

/// The numbers of nodes, of what they append and of what they send are within their limits, so that each message and
/// each record has a spelling.
pub fn nodes_stay_within_limits<E: Exchange>()
    ensures worlds { (w : World) → IsReached E.profile w → WorldNumbers E.profile w }
    ensures clients { (records : List ClientRecord) → client_opens E.profile (no_client E.profile) records ≡ true → Each (IsClientRecord E.profile) records
        → ClientNumbers E.profile (client_of E.profile records) }
    ensures binds { (records : List ClientRecord) → IfOk (bind (client_of E.profile records)).answer (IsMessage E.profile) }
    ensures uploads { (records : List ClientRecord) → ClientNumbers E.profile (client_of E.profile records) → IfOk (upload E.profile (client_of E.profile records)).answer (IsMessage E.profile) }
    ensures uploads_from { (records : List ClientRecord) (after : ℕ) → ClientNumbers E.profile (client_of E.profile records) → IfOk (upload_from E.profile (client_of E.profile records) after).answer (IsMessage E.profile) }
    ensures asks { (records : List ClientRecord) → ClientNumbers E.profile (client_of E.profile records) → IfOk (ask (client_of E.profile records)).answer (IsMessage E.profile) }
    ensures commits { (records : List ClientRecord) (ms : ℕ) (edits : List E.Instr) → ClientNumbers E.profile (client_of E.profile records)
        → Each (IsClientRecord E.profile) (commit E.profile (client_of E.profile records) ms edits).records }
    ensures saves { (records : List ClientRecord) (by count : ℕ) (h : Change) → ClientNumbers E.profile (client_of E.profile records)
        → Each (IsClientRecord E.profile) (heir E.profile (client_of E.profile records) by count h).records }
    ensures recovers { (records : List ClientRecord) (frames : List Message) → client_opens E.profile (no_client E.profile) records ≡ true
        → ClientNumbers E.profile (client_of E.profile records) → Each (IsClientRecord E.profile) (recover E.profile (client_of E.profile records) frames).records }
    ensures takes { (records : List ClientRecord) (m : Message) → IsMessage E.profile m → Each (IsClientRecord E.profile) (take_message E.profile (client_of E.profile records) m).records }
    ensures servers { (records : List ServerRecord) → server_opens E.profile no_server records ≡ true → ServerNumbers E.profile (server_of E.profile records) }
    ensures entries { (records : List ServerRecord) → server_opens E.profile no_server records ≡ true → Each (IsServerRecord E.profile) records }
    ensures replies { (records : List ServerRecord) (m : Message) → server_opens E.profile no_server records ≡ true → IsMessage E.profile (serve E.profile (server_of E.profile records) m).answer }
{}

/// Every list that a node spells is within the limits of a changeset, so that its bytes are read back: what clients
/// made, what they have unsent as it was carried since, and the server's history. Crossing keeps lists within them.
pub fn lists_stay_small<E: Exchange>()
    ensures clients { (records : List ClientRecord) → ClientLists E.profile (client_of E.profile records) }
    ensures servers { (records : List ServerRecord) → ServerLists E.profile (server_of E.profile records) }
    ensures crossings { (a b x y : Changeset E.Instr) → cross_changesets E.profile a b ≡ Ok (x, y) → CrossSmall E.profile a b x y }
{}

/// A file that is read gives records that opening accepts, and records that opening accepts are read back from their
/// bytes.
pub fn files_read_back<E: Exchange>()
    ensures client_opens { (read : Bytes → Option ClientRecord) (file : List Bytes) (records : List ClientRecord)
        → client_reads E.profile read (no_client E.profile) file ≡ Ok records → client_opens E.profile (no_client E.profile) records ≡ true }
    ensures client_back { (read : Bytes → Option ClientRecord) (bytes : ClientRecord → Bytes) (records : List ClientRecord)
        → client_opens E.profile (no_client E.profile) records ≡ true → Each (λ r. read (bytes r) ≡ Some r) records
        → client_reads E.profile read (no_client E.profile) (map bytes records) ≡ Ok records }
    ensures server_opens { (read : Bytes → Option ServerRecord) (file : List Bytes) (records : List ServerRecord)
        → server_reads E.profile read no_server file ≡ Ok records → server_opens E.profile no_server records ≡ true }
    ensures server_back { (read : Bytes → Option ServerRecord) (bytes : ServerRecord → Bytes) (records : List ServerRecord)
        → server_opens E.profile no_server records ≡ true → Each (λ r. read (bytes r) ≡ Some r) records
        → server_reads E.profile read no_server (map bytes records) ≡ Ok records }
{}

/// The entries of an ident have the numbers 1, 2, 3 and so on. Once the ident is retired there are no more of them: not
/// now, and not after any message that comes later. A server that answers by what it keeps holds to it too, also where
/// its history was trimmed.
pub fn retired_counts_are_final<E: Exchange>()
    ensures numbered { (records : List ServerRecord) (c : ℕ) → server_opens E.profile no_server records ≡ true
        → numbers_of c (whole_history E.profile (server_of E.profile records)) ≡ numbers_from 1 (count (server_of E.profile records) c) }
    ensures last { (records : List ServerRecord) (c by : ℕ) → server_opens E.profile no_server records ≡ true
        → heir_of c (server_of E.profile records).retired ≡ Some by → CountIsFinal E.profile records c by }
    ensures whole { (records : List ServerRecord) (c by : ℕ) → server_opens E.profile no_server records ≡ true
        → heir_of c (server_of E.profile records).retired ≡ Some by → KeepsFinal (parts_of E.profile (server_of E.profile records)) c by (count (server_of E.profile records) c) }
    ensures kept { (kept : Parts E.Instr E.State) (c by n : ℕ) (ms : List Message) → KeepsFinal kept c by n → KeepsFinal (kept_after E.profile kept ms) c by n }
    ensures trimmed { (kept : Parts E.Instr E.State) (c by n : ℕ) → KeepsFinal kept c by n → KeepsFinal (trimmed E.profile kept) c by n }
    ensures answered { (kept : Parts E.Instr E.State) (c by n : ℕ) → KeepsFinal kept c by n → (serve_by E.profile kept (Retire c by)).answer ≡ Retired c by n }
    ensures refused { (kept : Parts E.Instr E.State) (c by n : ℕ) (g : Given E.Instr) (h : Change) → KeepsFinal kept c by n → at_ident c kept.idents ≡ Some g
        → merge_by E.profile kept c g h ≡ Err (IdentRetired n) }
{}

/// What is saved of a list of instructions acts, and each instruction that meets a break is listed once, with its break.
pub fn breaks_are_listed<E: Exchange>()
    ensures { (s : E.State) (is : List E.Instr) → ListsDrops E.profile s is }
{}

/// Each change of an old client takes effect as itself or as one transaction of its heir, never both, however often runs
/// of recovery are repeated and wherever they are stopped.
pub fn heirs_save_once<E: Exchange>()
    ensures once { (server : List ServerRecord) (ident by : ℕ) (old first : List ClientRecord) (moves : List HeirMove)
        → IsRecovery E.profile server ident by old first moves → SavesOnce E.profile server ident by old (heir_after E.profile first moves) }
    ensures saves { (records : List ClientRecord) (by n : ℕ) (h : Change) (number : ℕ) (dropped : List (ℕ × ℕ))
        → (heir E.profile (client_of E.profile records) by n h).answer ≡ Ok (SavedAs number dropped) → SavesNow E.profile (client_of E.profile records) by n h number dropped }
    ensures again { (records : List ClientRecord) (by n : ℕ) (h : Change) (number : ℕ) (dropped : List (ℕ × ℕ))
        → (heir E.profile (client_of E.profile records) by n h).answer ≡ Ok (SavedAs number dropped)
        → heir E.profile (client_of E.profile (records ++ (heir E.profile (client_of E.profile records) by n h).records)) by n h ≡ heir_says Known }
    ensures known { (records : List ClientRecord) (by n : ℕ) (h : Change) → by ≡ (client_of E.profile records).ident → n < h.number → h.number ≤ n + last (client_of E.profile records)
        → heir E.profile (client_of E.profile records) by n h ≡ heir_says Known }
    ensures stops { (records : List ClientRecord) (by n : ℕ) (h : Change) (why : ClientRefusal) → client_opens E.profile (no_client E.profile) records ≡ true → by ≢ 0
        → (heir E.profile (client_of E.profile records) by n h).answer ≡ Err (ByClient why) → StopsAt E.profile (client_of E.profile records) h why }
    ensures all_unsent { (records : List ClientRecord) → ClientNumbers E.profile (client_of E.profile records)
        → upload_from E.profile (client_of E.profile records) 0 ≡ upload E.profile (client_of E.profile records) }
{}

/// In a quiet world all clients that the server knows have its objects. From every world that events make a client
/// gets there in so many rounds, and so do all of them, one after another and then each once more, or one of the
/// outcomes on the way is a named exception. Whatever happens between a client's turns: once it took more turns than
/// the history has entries and it made changes, it was there after one of them, or such an exception came in one.
pub fn worlds_make_progress<E: Exchange>()
    ensures quiet { (w : World) → IsReached E.profile w → IsQuiet E.profile w → (i : ℕ) (nd : Node) → at w.clients i ≡ Some nd → ident_of E.profile w nd ≢ 0
        → (client_of E.profile nd.records).objects ≡ only_by E.profile (subset_of E.profile nd) (server_objects E.profile (server_of E.profile w.server)) }
    ensures agree { (w : World) → IsReached E.profile w → IsQuiet E.profile w → (i j : ℕ) (a b : Node) → at w.clients i ≡ Some a → at w.clients j ≡ Some b
        → ident_of E.profile w a ≢ 0 → ident_of E.profile w b ≢ 0 → subset_of E.profile a ≡ subset_of E.profile b → (client_of E.profile a.records).objects ≡ (client_of E.profile b.records).objects }
    ensures current { (w : World) → IsReached E.profile w → (i : ℕ) (nd : Node) → at w.clients i ≡ Some nd → ident_of E.profile w nd ≢ 0 → IsCurrent E.profile w nd
        → (client_of E.profile nd.records).objects ≡ only_by E.profile (subset_of E.profile nd) (server_objects E.profile (server_of E.profile w.server)) }
    ensures one { IsRoomy E.profile → (w : World) → IsReached E.profile w → (i : ℕ) (nd : Node) → at w.clients i ≡ Some nd → (rounds : ℕ) → enough E.profile w nd ≤ rounds
        → Comes (IsException (IsArmed E.profile w nd) (ident_of E.profile w nd ≡ 0) ((client_of E.profile nd.records).second ≡ false)) (outcomes E.profile w (catches_up nd.name (length w.messages) rounds))
        ⊎ HasCaughtUp E.profile (world_after E.profile w (catches_up nd.name (length w.messages) rounds)) nd.name }
    ensures all { IsRoomy E.profile → (w : World) → IsReached E.profile w → (rounds : ℕ) → enough_for_all E.profile w ≤ rounds
        → Comes (IsException (AnyArmed E.profile w) (AnyUnnamed E.profile w) (AnyOld E.profile w)) (outcomes E.profile w (all_catch_up w rounds))
        ⊎ AllCurrent E.profile (world_after E.profile w (all_catch_up w rounds)) }
    ensures between { IsRoomy E.profile → (w : World) → IsReached E.profile w → (i : ℕ) (nd : Node) → at w.clients i ≡ Some nd → (between : List (List (Event E.Instr))) (most : ℕ)
        → ((end : Node) → at (after_turns E.profile nd.name w between).clients i ≡ Some end → length (log E.profile (after_turns E.profile nd.name w between)) + length (client_of E.profile end.records).made ≤ most) → most < length between
        → Gets E.profile (IsException (Unit {0}) (Unit {0}) ((client_of E.profile nd.records).second ≡ false)) nd.name w between }
    ensures stays { (w : World) → IsReached E.profile w → (es : List (Event E.Instr)) (i : ℕ) (nd end : Node) → at w.clients i ≡ Some nd → at (world_after E.profile w es).clients i ≡ Some end
        → ident_of E.profile w nd ≢ 0 → IsCurrent E.profile w nd → length (log E.profile (world_after E.profile w es)) ≡ length (log E.profile w)
        → length (client_of E.profile end.records).made ≡ length (client_of E.profile nd.records).made → IsCurrent E.profile (world_after E.profile w es) end }
    ensures late { (w : World) → IsReached E.profile w → AllCurrent E.profile w → (late : List (ℕ × Name))
        → AllCurrent E.profile (world_after E.profile w (map (λ d. Delivers d.0 d.1) late)) × (log E.profile (world_after E.profile w (map (λ d. Delivers d.0 d.1) late)) ≡ log E.profile w) }
    ensures turns { (name : Name) (w : World) (between : List (List (Event E.Instr))) → world_after E.profile w (turns E.profile name w between) ≡ after_turns E.profile name w between }
{}

/// Clients of which none made a change that mismatches, needs form 2 or is long are never held up: where each has its ident
/// and gets all tables, no disk is armed and nobody else has an ident, they upload and ask in turn, without another Bind, and
/// all are current after twice as many rounds as it takes messages to bear all that they made. No exception is left. It is so
/// of a world after each such change, sending, delivery and opening anew.
pub fn harmless_clients_catch_up<E: Exchange>()
    ensures in_turn { (test : ℕ → ℕ → List E.Instr → Bool) (most size : ℕ) → AreHarmless E.profile (λ c n is. test c n is ≡ true) most size → most ≤ E.profile.full
        → (w : World) → IsReached E.profile w → IsHarmless E.profile (λ c n is. test c n is ≡ true) most w
        → (batch : ℕ) → batch ≤ E.profile.most → batch * size ≤ E.profile.room → (turns : ℕ) → most < turns * batch → (rounds : ℕ) → turns + turns ≤ rounds
        → AllCurrent E.profile (world_after E.profile w (in_turn (map (λ nd. nd.name) w.clients) (length w.messages) rounds)) }
    ensures lasts { (test : ℕ → ℕ → List E.Instr → Bool) (most : ℕ) (w : World) → IsReached E.profile w → IsHarmless E.profile (λ c n is. test c n is ≡ true) most w
        → (e : Event E.Instr) → IsHarmlessEvent E.profile (λ c n is. test c n is ≡ true) w e → IsHarmless E.profile (λ c n is. test c n is ≡ true) (most + made_by_event e) (happens E.profile w e).world }
{}

/// The same where the server gave up history, as often as it may: in a quiet exchange all clients that the server knows
/// have their part of the objects that it keeps, and from every such exchange a client gets there, and so do all of them,
/// or one of the outcomes on the way is a named exception. There is one more of those: a client whose settled number lies
/// before the server's floor may be refused by code 71. Where no disk is armed, the server knows every client, their files are in form 2 and they stand above
/// the floor, a mismatch or a full history alone is such an exception; and a client that has nothing unsent gets there with
/// none at all, in as many rounds as it takes messages to bear what it lacks. A client that the server knows and that stands above its floor
/// stays above it for good.
pub fn later_worlds_make_progress<E: Exchange>()
    ensures quiet { (l : Later E.Instr E.State) → IsLater E.profile l → IsQuiet E.profile l.world → (i : ℕ) (nd : Node) → at l.world.clients i ≡ Some nd → ident_of E.profile l.world nd ≢ 0
        → (client_of E.profile nd.records).objects ≡ only_by E.profile (subset_of E.profile nd) l.kept.objects }
    ensures current { (l : Later E.Instr E.State) → IsLater E.profile l → (i : ℕ) (nd : Node) → at l.world.clients i ≡ Some nd → ident_of E.profile l.world nd ≢ 0 → IsCurrent E.profile l.world nd
        → (client_of E.profile nd.records).objects ≡ only_by E.profile (subset_of E.profile nd) l.kept.objects }
    ensures one { IsRoomy E.profile → (l : Later E.Instr E.State) → IsLater E.profile l → (i : ℕ) (nd : Node) → at l.world.clients i ≡ Some nd → (rounds : ℕ) → enough E.profile l.world nd ≤ rounds
        → Comes (λ x. IsException (IsArmed E.profile l.world nd) (ident_of E.profile l.world nd ≡ 0) ((client_of E.profile nd.records).second ≡ false) x ⊎ IsBelowFloor (IsBelow E.profile l nd) x) (later_outcomes E.profile l (catches_up nd.name (length l.world.messages) rounds))
        ⊎ HasCaughtUp E.profile (after_events E.profile l (catches_up nd.name (length l.world.messages) rounds)).world nd.name }
    ensures all { IsRoomy E.profile → (l : Later E.Instr E.State) → IsLater E.profile l → (rounds : ℕ) → enough_for_all E.profile l.world ≤ rounds
        → Comes (λ x. IsException (AnyArmed E.profile l.world) (AnyUnnamed E.profile l.world) (AnyOld E.profile l.world) x ⊎ IsBelowFloor (AnyBelow E.profile l) x) (later_outcomes E.profile l (all_catch_up l.world rounds))
        ⊎ AllCurrent E.profile (after_events E.profile l (all_catch_up l.world rounds)).world }
    ensures calm { IsRoomy E.profile → (l : Later E.Instr E.State) → IsLater E.profile l → IsCalm E.profile l → (rounds : ℕ) → enough_for_all E.profile l.world ≤ rounds
        → Comes (IsException ⊥ ⊥ ⊥) (later_outcomes E.profile l (all_catch_up l.world rounds)) ⊎ AllCurrent E.profile (after_events E.profile l (all_catch_up l.world rounds)).world }
    ensures readers { (l : Later E.Instr E.State) → IsLater E.profile l → (i : ℕ) (nd : Node) → at l.world.clients i ≡ Some nd → (client_of E.profile nd.records).ident ≢ 0 → (client_of E.profile nd.records).second ≡ true
        → (client_of E.profile nd.records).unsent ≡ [] → IsAbove E.profile l nd → l.world.stops nd.name ≡ None → l.world.stops server_name ≡ None → (n : ℕ) → AreBorne E.profile n (lacks E.profile l.world nd)
        → HasCaughtUp E.profile (after_events E.profile l (rounds nd.name (length l.world.messages) n)).world nd.name }
    ensures above { (l : Later E.Instr E.State) → IsLater E.profile l → (i : ℕ) (nd : Node) → at l.world.clients i ≡ Some nd → ident_of E.profile l.world nd ≢ 0 → IsAbove E.profile l nd
        → (es : List (LaterEvent E.Instr)) (end : Node) → at (all_later E.profile l es).world.clients i ≡ Some end → IsAbove E.profile (all_later E.profile l es) end }
{}

/// A client that a mismatch or the floor holds up goes on by a reset. Run after run, each over what the old client sends
/// from the first change on that its heir hasn't: either the heir has them all, after as many runs as it lacked changes,
/// or its commit refuses the next one for a reason that the laws name. Then each change of the old client is integrated as
/// itself, or saved as a transaction of the heir, without what was dropped and listed. What a run appends is what
/// transactions of the heir do, so that all laws of worlds hold of heirs, and they catch up as any client does.
pub fn recoveries_end<E: Exchange>()
    ensures ends { IsRoomy E.profile → (w : World) → IsReached E.profile w → (i : ℕ) (nd : Node) → at w.clients i ≡ Some nd → (client_of E.profile nd.records).ident ≢ 0
        → (heir : List ClientRecord) → client_opens E.profile (no_client E.profile) heir ≡ true → (client_of E.profile heir).ident ≢ 0
        → (n : ℕ) → count (server_of E.profile w.server) (client_of E.profile nd.records).ident ≤ n → (runs : ℕ) → length (client_of E.profile nd.records).made ≤ n + last (client_of E.profile heir) + runs
        → IsHeldUp E.profile (client_of E.profile nd.records) n (client_of E.profile (after_runs E.profile (client_of E.profile nd.records) n runs heir))
        ⊎ (length (client_of E.profile nd.records).made ≤ n + last (client_of E.profile (after_runs E.profile (client_of E.profile nd.records) n runs heir))) }
    ensures ends_later { IsRoomy E.profile → (l : Later E.Instr E.State) → IsLater E.profile l → (i : ℕ) (nd : Node) → at l.world.clients i ≡ Some nd → (client_of E.profile nd.records).ident ≢ 0
        → (heir : List ClientRecord) → client_opens E.profile (no_client E.profile) heir ≡ true → (client_of E.profile heir).ident ≢ 0
        → (n : ℕ) → count (server_of E.profile l.world.server) (client_of E.profile nd.records).ident ≤ n → (runs : ℕ) → length (client_of E.profile nd.records).made ≤ n + last (client_of E.profile heir) + runs
        → IsHeldUp E.profile (client_of E.profile nd.records) n (client_of E.profile (after_runs E.profile (client_of E.profile nd.records) n runs heir))
        ⊎ (length (client_of E.profile nd.records).made ≤ n + last (client_of E.profile (after_runs E.profile (client_of E.profile nd.records) n runs heir))) }
    ensures lives { (server : List ServerRecord) (ident by : ℕ) (old first : List ClientRecord) (moves : List HeirMove) → IsRecovery E.profile server ident by old first moves
        → length (client_of E.profile old).made ≤ count (server_of E.profile server) ident + last (client_of E.profile (heir_after E.profile first moves))
        → (k : ℕ) → k < length (client_of E.profile old).made → LivesOn E.profile server ident old (heir_after E.profile first moves) k }
    ensures runs { (w : World) → IsReached E.profile w → (i : ℕ) (nd : Node) → at w.clients i ≡ Some nd → w.stops nd.name ≡ None → (frames : List Message) → RunsAs E.profile w i nd frames }
{}
