ghost use Rattle.std.specs.Prelude.{◌≡◌, ◌<◌, ◌^◌, IfSome};
ghost use Rattle.sync_gen.specs.Edits.{length_in, short_length};

use super::instrs::{key_of, name, table};
use sync_cells::{Cell, Content};
use sync_store::Store;

/// The length of a list that gets an element is below this.
const LONGEST_LIST: usize = 1 << 31;

/// The length of the list of an object, where it has a list that isn't too long.
pub(crate) fn list_length(objects: &Store, key: u32) -> Option<u32>
    ensures length { result ≡ length_in objects.now key }
    ensures short { IfSome result (λ n. n < 2 ^ 31) }
{
    short_length(objects.cell(&table(), &key_of(key), &name("l"))?)
}

fn short_length(cell: &Cell) -> Option<u32>
    ensures length { result ≡ short_length cell.now }
    ensures short { IfSome result (λ n. n < 2 ^ 31) }
{
    match cell.content() {
        Content::List(list) if list.len() < LONGEST_LIST => Some(list.len() as u32),
        _ => None,
    }
}
