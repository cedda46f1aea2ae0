// The laws of worlds, as an exchange uses them.
ghost use Rattle.std.specs.Prelude.{◌≡◌, ℕ, List, Ok, Some, map, true};
ghost use Rattle.sync_base.specs.States.{State};
ghost use Rattle.sync_data.specs.declared.instr.Instr.{Instr};
ghost use Rattle.sync_exchange.specs.Profile.{the_profile};
ghost use Rattle.sync_model.specs.Each.{Each};
ghost use Rattle.sync_model.specs.Files.{server_opens};
ghost use Rattle.sync_model.specs.Fronts.{file_gives};
ghost use Rattle.sync_model.specs.Messages.{Message};
ghost use Rattle.sync_model.specs.Parts.{Parts, parts_of, serve_by, served_of};
ghost use Rattle.sync_model.specs.Servers.{ServerRecord, no_server, serve, server_of};
ghost use Rattle.sync_model.specs.Worlds.{Event, IsReached, Node, World, at, empty_world, happens};
ghost use Rattle.sync_world.specs.Nodes.{FitsClient, FitsServer, ReadsBack, ServerReadsBack};

use sync_exchange::Instrs;
use sync_model::{
    files_read_back, nodes_stay_within_limits, server_files_give_what_is_kept,
    servers_answer_by_parts, worlds_hold,
};

/// Events lead from reached worlds to reached ones, and the records of their nodes are read back from their bytes. A server
/// that keeps what a whole history gives answers as one that reads its records.
pub(crate) fn worlds_read_back()
    ensures first { IsReached the_profile empty_world }
    ensures steps { (w : World) (e : Event Instr) → IsReached the_profile w → IsReached the_profile (happens the_profile w e).world }
    ensures client { (w : World) (i : ℕ) (n : Node) → IsReached the_profile w → at w.clients i ≡ Some n → Each FitsClient n.records → ReadsBack n.records }
    ensures server { (w : World) → IsReached the_profile w → Each FitsServer w.server → ServerReadsBack w.server }
    ensures opens { (w : World) → IsReached the_profile w → server_opens the_profile no_server w.server ≡ true }
    ensures keeps { (records : List ServerRecord) (kept : Parts Instr State) → server_opens the_profile no_server records ≡ true → file_gives the_profile (map (λ r. Some r) records) ≡ Ok kept
        → kept ≡ parts_of the_profile (server_of the_profile records) }
    ensures serves { (records : List ServerRecord) (kept : Parts Instr State) (m : Message) → server_opens the_profile no_server records ≡ true → file_gives the_profile (map (λ r. Some r) records) ≡ Ok kept
        → serve_by the_profile kept m ≡ served_of the_profile (server_of the_profile records) (serve the_profile (server_of the_profile records) m) }
{
    worlds_hold::<Instrs>();
    files_read_back::<Instrs>();
    nodes_stay_within_limits::<Instrs>();
    servers_answer_by_parts::<Instrs>();
    server_files_give_what_is_kept::<Instrs>();
}
