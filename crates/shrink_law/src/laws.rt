// The laws of short files, and of client files that were copied or put back from a backup.
ghost use Rattle.shrink_law.specs.Current.{HasPart, HasTold, HasWhole};
ghost use Rattle.shrink_law.specs.Exchanges.{AnswersAlike, IsSame, ShrinkEvent, StaysAlike, all_shrinking, first_shrinking, said, shrinking, without_shrinks};
ghost use Rattle.shrink_law.specs.Forked.{IsSavedOrRefused, verified};
ghost use Rattle.shrink_law.specs.Openings.{long_opens};
ghost use Rattle.shrink_law.specs.Short.{Alike, IsPlain, short_records, shrunk, taken};
ghost use Rattle.std.specs.Prelude.{List, None, Some, [], length, map, true, ◌++◌, ◌-◌, ◌<◌, ◌≡◌, ◌≢◌, ℕ};
ghost use Rattle.sync_model.specs.Clients.{Client, ClientRecord, client_of, no_client, to_upload, tooks_of};
ghost use Rattle.sync_model.specs.Each.{Each};
ghost use Rattle.sync_model.specs.Files.{IsLong, client_opens, server_opens};
ghost use Rattle.sync_model.specs.Later.{IsLater, all_later, first_later};
ghost use Rattle.sync_model.specs.Limits.{IsClientRecord};
ghost use Rattle.sync_model.specs.Messages.{Ask2, Download, Stored, Upload};
ghost use Rattle.sync_model.specs.Profile.{restricted};
ghost use Rattle.sync_model.specs.Progress.{IsRoomy};
ghost use Rattle.sync_model.specs.Resets.{recover_changes};
ghost use Rattle.sync_model.specs.Servers.{ServerRecord, count, entries_from, is_given, no_server, replies, sent_of, serve, server_of};
ghost use Rattle.sync_model.specs.Worlds.{IsReached, Node, World, at, is_there};

use sync_model::Exchange;

/// Two clients of which all that a call reads is the same: each call appends the same records and gives the same answer at
/// both, and after any beginning of what one call appends they are such clients again. A client, and what is left of it in
/// its short file, are two such.
pub fn alike_clients_stay_alike<E: Exchange>()
    ensures answers { (c d : Client E.Instr E.State) → Alike c d → AnswersAlike E.profile c d }
    ensures stays { (c d : Client E.Instr E.State) → Alike c d → StaysAlike E.profile c d }
    ensures shrinks { (records : List ClientRecord) → Alike (client_of E.profile records) (shrunk E.profile (client_of E.profile records)) }
{}

/// A short file gives what is left of the client of its long file, if opening accepts that one. Opening accepts the short
/// file, and behind it the records that it accepts behind the long one; and with these it gives a client like the one that
/// the long file gives with them. Of a file without a short front opening accepts what it accepted before there were such
/// fronts, and no front is left.
pub fn shrunk_files_give_the_client<E: Exchange>()
    ensures gives { (records : List ClientRecord) → client_opens E.profile (no_client E.profile) records ≡ true
        → client_of E.profile (short_records E.profile (client_of E.profile records)) ≡ shrunk E.profile (client_of E.profile records) }
    ensures opens { (records more : List ClientRecord) → client_opens E.profile (no_client E.profile) records ≡ true → Each (IsClientRecord E.profile) records → is_there (client_of E.profile records).id ≡ true
        → Each IsPlain more → client_opens E.profile (client_of E.profile records) more ≡ true
        → client_opens E.profile (no_client E.profile) (short_records E.profile (client_of E.profile records) ++ more) ≡ true }
    ensures goes_on { (records more : List ClientRecord) → client_opens E.profile (no_client E.profile) records ≡ true → Each IsPlain more
        → Alike (client_of E.profile (records ++ more)) (client_of E.profile (short_records E.profile (client_of E.profile records) ++ more)) }
    ensures as_before { (records : List ClientRecord) → Each IsLong records
        → (client_opens E.profile (no_client E.profile) records ≡ long_opens E.profile (no_client E.profile) records) × ((client_of E.profile records).front ≡ None) }
{}

/// Whenever clients put short files in place of theirs, and whatever else happens, trims of the server's file among it: the
/// exchange is that of the other events alone, each event comes to what it comes to there, and each client's file gives a
/// client like the one of all its records. So what is proved of exchanges holds of it as it stands.
pub fn shrunk_exchanges_are_exchanges<E: Exchange>()
    ensures same { (es : List (ShrinkEvent E.Instr)) → IsSame E.profile (all_shrinking E.profile (first_shrinking E.profile) es) (all_later E.profile (first_later E.profile) (without_shrinks es)) }
    ensures words { (es : List (ShrinkEvent E.Instr)) (e : ShrinkEvent E.Instr)
        → (shrinking E.profile (all_shrinking E.profile (first_shrinking E.profile) es) e).words ≡ said E.profile (all_shrinking E.profile (first_shrinking E.profile) es).later e }
    ensures later { (es : List (ShrinkEvent E.Instr)) → IsLater E.profile (all_shrinking E.profile (first_shrinking E.profile) es).later }
{}

/// Whatever became of a client's file without a short front, as where it was copied or put back from a backup: once it took the whole history of
/// a server, what it made is in that history under its ident, in order and with its times, and then comes what it has
/// unsent; of its Upload none is taken for a repeat. So it is where it took the history up to its cursor and a question
/// is answered by no entries, or where it took a beginning of it and an empty Upload is answered by the number of its own
/// changes that it took.
pub fn current_clients_send_no_repeats<E: Exchange>()
    ensures current { (records : List ClientRecord) (server : List ServerRecord) → Each IsLong records → client_opens E.profile (no_client E.profile) records ≡ true → server_opens E.profile no_server server ≡ true
        → HasWhole E.profile records (server_of E.profile server) → HasTold E.profile records (server_of E.profile server) }
    // A question that is answered by no entries tells it, where the client took the history up to its cursor.
    ensures empty { IsRoomy E.profile → (records : List ClientRecord) (server : List ServerRecord) → Each IsLong records → client_opens E.profile (no_client E.profile) records ≡ true → server_opens E.profile no_server server ≡ true → (client_of E.profile records).ident ≢ 0
        → tooks_of records ≡ map (λ x. sent_of E.profile (restricted E.profile (client_of E.profile records).subset x)) (entries_from E.profile (server_of E.profile server).log (client_of E.profile records).cursor 0)
        → (settled : ℕ) → (serve E.profile (server_of E.profile server) (Ask2 (client_of E.profile records).ident (client_of E.profile records).cursor settled)).answer ≡ Download (client_of E.profile records).ident (client_of E.profile records).cursor []
        → HasTold E.profile records (server_of E.profile server) }
    // An Upload without changes is answered by the count of its ident, and appends nothing.
    ensures probe { (records : List ServerRecord) (c : ℕ) → is_given (server_of E.profile records) c ≡ true
        → serve E.profile (server_of E.profile records) (Upload c []) ≡ replies (Stored c (count (server_of E.profile records) c)) }
    // That answer tells it too, where it is the number of own changes that the client took.
    ensures probed_part { (records : List ClientRecord) (server : List ServerRecord) → Each IsLong records → client_opens E.profile (no_client E.profile) records ≡ true → server_opens E.profile no_server server ≡ true
        → HasPart E.profile records (server_of E.profile server) → count (server_of E.profile server) (client_of E.profile records).ident ≡ taken (client_of E.profile records) → HasTold E.profile records (server_of E.profile server) }
    ensures probed { (records : List ClientRecord) (n : ℕ) → client_opens E.profile (no_client E.profile) records ≡ true → n ≡ taken (client_of E.profile records)
        → Each (λ h. n < h.number) (to_upload E.profile (client_of E.profile records)) }
{}

/// An old client whose file was copied or put back from a backup, where its heir goes by the number of own changes that this
/// file took, in place of the server's count: of what it has unsent nothing is said to be in the history, and nothing is left
/// out. Each change is saved, now or before, or the heir's commit refuses it. In an exchange of own clients alone what the entries
/// behind the cursor verify is the server's count, so there both ways are one.
pub fn forked_clients_are_saved<E: Exchange>()
    ensures saved { (old : List ClientRecord) → client_opens E.profile (no_client E.profile) old ≡ true → (heir : Client E.Instr E.State)
        → Each IsSavedOrRefused (recover_changes E.profile heir (taken (client_of E.profile old)) (to_upload E.profile (client_of E.profile old))).answer }
    ensures honest { (w : World) → IsReached E.profile w → (i : ℕ) (nd : Node) → at w.clients i ≡ Some nd → (client_of E.profile nd.records).ident ≢ 0
        → verified (client_of E.profile nd.records) (map (sent_of E.profile) (entries_from E.profile (server_of E.profile w.server).log (length (server_of E.profile w.server).log - (client_of E.profile nd.records).cursor) (client_of E.profile nd.records).cursor)) ≡ count (server_of E.profile w.server) (client_of E.profile nd.records).ident }
{}
