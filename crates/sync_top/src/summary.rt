ghost use Rattle.std.specs.Prelude.{◌≡◌, ◌&&◌, ◌++◌, ◌<◌, ◌^◌, count_by, length, IfOk, OnOk};
ghost use Rattle.sync_gen.specs.Clients.{name_of};
ghost use Rattle.sync_model.specs.Worlds as model;
ghost use Rattle.sync_world.specs.Holding.{Holds};
ghost use Rattle.gen_law.specs.Plans.{AreClients, clients};
ghost use Rattle.sync_top.specs.Summaries.{equals, history_in, line, server_dump, summary_text};

use super::counts::Counts;
use super::laws::servers_keep;
use super::plan::EVERY_CLIENT;
use std::alloc::Global;
use sync_data::{Name, NoMemory};
use sync_dump::dump_lines;
use sync_gen::client_name;
use sync_words::{put, put_said};
use sync_world::World;

/// Puts a line of a word and a number.
fn put_line(alloc: Global, out: &mut Vec<u8>, word: &str, number: u64) -> Result<(), NoMemory>
    ensures { OnOk result (out.new.items ≡ out.old.items ++ line word.now number) }
{
    put_said(alloc, out, word, &[number])?;
    put(out, "\n")
}

/// Whether a client has the whole history, nothing unsent, and what the server's dump shows.
fn is_equal(alloc: Global, world: &World, name: &Name, dump: &[u8]) -> Result<bool, NoMemory>
    ensures { (w : model.World) → Holds w world.now → dump.now ≡ server_dump w → IfOk result (λ equal. equal ≡ equals w name.now) }
{
    let client = match world.client(name) {
        Some(client) => client,
        None => return Ok(false),
    };
    servers_keep();
    let whole = client.cursor() == world.server().len();
    let sent = client.unsent() == 0;
    let own = dump_lines(alloc, client.objects())?;
    let same = own.as_slice() == dump;
    Ok(whole & sent & same)
}

/// How many of these clients are equal to the server.
fn equal_among(alloc: Global, world: &World, clients: &[u32], dump: &[u8]) -> Result<u32, NoMemory>
    requires clients { AreClients clients.now }
    requires few { length clients.now < 2 ^ 32 }
    ensures { (w : model.World) → Holds w world.now → dump.now ≡ server_dump w → IfOk result (λ n. n ≡ count_by (λ c. equals w (name_of c)) clients.now) }
{
    let mut equal = 0;
    for client in clients {
        let name = client_name(*client);
        if is_equal(alloc, world, &name, dump)? {
            equal += 1;
        }
    }
    Ok(equal)
}

/// How many clients are equal to the server.
fn equal_clients(alloc: Global, world: &World) -> Result<u32, NoMemory>
    ensures { (w : model.World) → Holds w world.now → IfOk result (λ n. n ≡ count_by (λ c. equals w (name_of c)) clients) }
{
    servers_keep();
    let dump = dump_lines(alloc, world.server().objects())?;
    equal_among(alloc, world, &EVERY_CLIENT, &dump)
}

/// The length of the server's history.
fn history(world: &World) -> u64
    ensures { (w : model.World) → Holds w world.now → result ≡ history_in w }
{
    servers_keep();
    world.server().len() as u64
}

/// The summary of an exchange of this seed and this number of turns (docs/FORMATS.md, "The generator").
pub(crate) fn summary_of(
    alloc: Global,
    seed: u64,
    count: u32,
    counts: Counts,
    world: &World,
) -> Result<Vec<u8>, NoMemory>
    ensures { (w : model.World) → Holds w world.now → IfOk result (λ text. text.items ≡ summary_text seed count counts.made (history_in w) counts.refused (count_by (λ c. equals w (name_of c)) clients)) }
{
    let equal = equal_clients(alloc, world)?;
    let history = history(world);
    let mut out = Vec::new(alloc);
    put_line(alloc, &mut out, "seed", seed)?;
    put_line(alloc, &mut out, "turns", count as u64)?;
    put_line(alloc, &mut out, "made", counts.made as u64)?;
    put_line(alloc, &mut out, "history", history)?;
    put_line(alloc, &mut out, "refused", counts.refused as u64)?;
    put_line(alloc, &mut out, "equal", equal as u64)?;
    Ok(out)
}
