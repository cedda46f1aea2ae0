// The laws of worlds, as a replay uses them.
ghost use Rattle.std.specs.Prelude.{◌≡◌, ◌≤◌, ℕ, List, Ok, Some, map};
ghost use Rattle.sync_data.specs.declared.instr.Instr.{Instr};
ghost use Rattle.sync_base.specs.States.{IsState, State};
ghost use Rattle.sync_exchange.specs.Profile.{the_profile};
ghost use Rattle.sync_model.specs.Bytes.{Name};
ghost use Rattle.sync_model.specs.Fronts.{file_gives};
ghost use Rattle.sync_model.specs.Log.{Stands, WorldFacts};
ghost use Rattle.sync_model.specs.Parts.{Parts, parts_of};
ghost use Rattle.sync_model.specs.Reports.{report_by_log, report_of};
ghost use Rattle.sync_model.specs.Clients.{ClientRecord};
ghost use Rattle.sync_model.specs.Servers.{ServerRecord, server_of};
ghost use Rattle.sync_model.specs.Worlds.{Edits, Event, IsReached, Made, World, empty_world, happens, world_after};
ghost use Rattle.gen_law.specs.Ends.{AllCaughtUp};
ghost use Rattle.gen_law.specs.Generated.{events_of, world_by};
ghost use Rattle.sync_node.specs.Items.{Items};
ghost use Rattle.sync_node.specs.Opening.{client_file};
ghost use Rattle.sync_node.specs.ServerTexts.{IsOwn};
ghost use Rattle.sync_top.specs.Jobs.{most_turns};
ghost use Rattle.sync_top.specs.Recoveries.{HeirRun, IsRecovery, IsSavedOnce, after_runs};
ghost use Rattle.sync_top.specs.Shrinks.{IsAnsweredAlike};
ghost use Rattle.sync_top.specs.Summaries.{equal_in};
ghost use Rattle.sync_top.specs.Synced.{AgreeWhereQuiet, AllCatchUp};
ghost use Rattle.sync_top.specs.Trims.{IsServedAlike, StaysOwn};

use gen_law::generated_exchanges_catch_up;
use sync_exchange::{Instrs, messages_bear_each_changeset};
use sync_model::{
    breaks_are_listed, heirs_save_once, recoveries_end, retired_counts_are_final,
    server_files_give_what_is_kept, servers_answer_by_parts, worlds_hold, worlds_make_progress,
};

/// What holds of every world that events make of the empty one, at the project's own instructions.
pub(crate) fn exchanges_hold()
    ensures facts { (w : World) → IsReached the_profile w → WorldFacts the_profile IsState w }
    ensures reports { (w : World) → IsReached the_profile w → report_of the_profile w ≡ report_by_log the_profile w }
    ensures acknowledged { (w : World) (name : Name) (ms number : ℕ) (edits : List Instr) (es : List (Event Instr))
        → (happens the_profile w (Edits name ms edits)).words ≡ Made number
        → Stands the_profile (world_after the_profile (happens the_profile w (Edits name ms edits)).world es) name number ms edits }
    ensures quiet { (w : World) → IsReached the_profile w → AgreeWhereQuiet w }
    ensures progress { (w : World) → IsReached the_profile w → AllCatchUp w }
{
    messages_bear_each_changeset();
    worlds_hold::<Instrs>();
    worlds_make_progress::<Instrs>();
}

/// In the end of every generated exchange all clients are current and equal to the server.
pub(crate) fn generated_end_equal()
    ensures caught_up { (seed count : ℕ) → count ≤ most_turns → AllCaughtUp (world_by empty_world (events_of seed count)) }
    ensures equal { (seed count : ℕ) → count ≤ most_turns → equal_in (world_by empty_world (events_of seed count)) ≡ 8 }
{
    generated_exchanges_catch_up();
}

/// What a server of such a world keeps is what its records give.
pub(crate) fn servers_keep()
    ensures { (w : World) (kept : Parts Instr State) → IsReached the_profile w → file_gives the_profile (map (λ r. Some r) w.server) ≡ Ok kept → kept ≡ parts_of the_profile (server_of the_profile w.server) }
{
    worlds_hold::<Instrs>();
    servers_answer_by_parts::<Instrs>();
    server_files_give_what_is_kept::<Instrs>();
}

/// A server over the file that `trim` writes of its own answers as over that, up to the first message that reaches below the
/// new floor. What a server itself wrote stays its own file.
pub(crate) fn trims_hold()
    ensures alike { (records : List ServerRecord) → IsOwn records → IsServedAlike records }
    ensures own { (records : List ServerRecord) (frames : Items) → StaysOwn records frames }
{}

/// A client over the file that `shrink` writes of its own answers as over that one, whatever is done with both files.
pub(crate) fn shrinks_hold()
    ensures { (bytes : List ℕ) (records : List ClientRecord) → client_file bytes ≡ Ok records → IsAnsweredAlike records }
{}

/// However runs over an heir's file are repeated or stopped, no change of the old client is saved twice, or both saved and integrated. Once
/// the heir has them all, each is one or the other.
pub(crate) fn recoveries_hold()
    ensures { (server : List ServerRecord) (ident by : ℕ) (old first : List ClientRecord) (runs : List HeirRun) → IsRecovery server ident by old first runs → IsSavedOnce server ident by old (after_runs first runs) }
{
    heirs_save_once::<Instrs>();
    retired_counts_are_final::<Instrs>();
    breaks_are_listed::<Instrs>();
    recoveries_end::<Instrs>();
}
