ghost use Rattle.std.specs.Prelude.{◌≡◌, ℕ, List, None, []};
ghost use Rattle.sync_data.specs.declared.instr.Instr.{Instr};
ghost use Rattle.sync_index.specs.Filters.{last_byte, spot_of};
ghost use Rattle.sync_index.specs.Spots.{AllAt, LieAt, spot_in};

use super::object::object_of;
use sync_base::{Instr, Key};

/// The spot of a filter at which all objects of a list lie. None where they lie at several, where an instruction adds a
/// table or a column, and for the empty list. It takes no memory.
pub fn shared_spot(instrs: &[Instr]) -> Option<u8>
    ensures lie { LieAt result instrs.now }
    ensures none { (spot : ℕ) → result ≡ None → AllAt spot instrs.now → instrs.now ≡ [] }
{
    let spot = spot_in(instrs.first()?)?;
    for instr in instrs {
        if spot_in(instr) != Some(spot) {
            return None;
        }
    }
    Some(spot)
}

/// The spot of the object that an instruction is about; none for an instruction of the schema.
fn spot_in(instr: &Instr) -> Option<u8>
    ensures { result ≡ spot_in instr.now }
{
    match object_of(instr) {
        Some((_, key)) => Some(spot_of(key)),
        None => None,
    }
}

/// The spot of a key: the last byte of a number, a text or a uuid.
#[inline(always)]
pub(crate) fn spot_of(key: &Key) -> u8
    ensures { result ≡ spot_of key.now }
{
    match key {
        Key::Int(number) => (number.cast_unsigned() % 256) as u8,
        Key::Text(text) => last_byte(text.text().as_bytes()),
        Key::Uuid(id) => id[15],
    }
}

fn last_byte(bytes: &[u8]) -> u8
    ensures { result ≡ last_byte bytes.now }
{
    match bytes.last() {
        Some(byte) => *byte,
        None => 0,
    }
}
