// The laws of generated exchanges.
ghost use Rattle.std.specs.Prelude.{◌≡◌, ◌≤◌, ℕ, count_by};
ghost use Rattle.sync_model.specs.Worlds.{empty_world};
ghost use Rattle.gen_law.specs.Ends.{AllCaughtUp};
ghost use Rattle.gen_law.specs.Generated.{events_of, words_by, world_by};
ghost use Rattle.gen_law.specs.Refusals.{is_refused};

use sync_exchange::Instrs;
use sync_model::{harmless_clients_catch_up, worlds_make_progress};

/// For every seed and up to 100,000 turns all eight clients of the exchange are current in the end, and have the server's
/// objects: what is drawn never mismatches, and 64 rounds bear all that was made.
pub fn generated_exchanges_catch_up()
    ensures { (seed count : ℕ) → count ≤ 100000 → AllCaughtUp (world_by empty_world (events_of seed count)) }
{
    harmless_clients_catch_up::<Instrs>();
    worlds_make_progress::<Instrs>();
}

/// For every seed and up to 100,000 turns no event of the exchange is refused, and no reply refuses: what is drawn acts on its
/// client's objects, and neither the server nor a client is stuck at it.
pub fn generated_exchanges_refuse_nothing()
    ensures { (seed count : ℕ) → count ≤ 100000 → count_by is_refused (words_by empty_world (events_of seed count)) ≡ 0 }
{
    harmless_clients_catch_up::<Instrs>();
}
