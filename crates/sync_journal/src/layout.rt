// The bytes of a journal: docs/FORMATS.md, "The journal".
ghost use Rattle.std.specs.Prelude.{◌≡◌};
ghost use Rattle.sync_journal.specs.Gates.{gate_of, told};
ghost use Rattle.sync_journal.specs.Records as records;

use byte_lists::ByteLists;

/// How a journal begins: RSYNCJ01.
pub const MAGIC: [u8; 8] = [0x52, 0x53, 0x59, 0x4e, 0x43, 0x4a, 0x30, 0x31];

/// A journal without records: how it begins, and a closed gate.
pub const FRESH: [u8; 9] = [0x52, 0x53, 0x59, 0x4e, 0x43, 0x4a, 0x30, 0x31, 0];

/// The greatest size of a file that stands for no records whatever its bytes are.
pub const SMALL: usize = 9;

/// A gate behind which a record stands. Any other byte is a closed gate.
pub const OPEN: u8 = 1;

/// The gate behind the last record.
pub const CLOSED: u8 = 0;

/// The bytes that an append adds to those of its record: the length, and the gate behind it.
pub const AROUND: usize = 5;

/// The number of bytes that a record may have.
pub const LONGEST: usize = 67_108_864;

/// The first bytes that notes have, from this one.
const FIRST_NOTE: u8 = 18;

/// And to this one.
const LAST_NOTE: u8 = 31;

/// Whether the bytes are those of a note, which stands beside the records.
pub fn is_note(bytes: &[u8]) -> bool
    ensures { result ≡ records.is_note bytes.now }
{
    match bytes {
        [tag, ..] => FIRST_NOTE <= *tag && *tag <= LAST_NOTE,
        [] => false,
    }
}

/// The place of the gate of the record of that number, counted from 0, or 2^64 - 1 where it would be above. From the
/// last record on it is that of the gate behind it. Notes before it aren't counted.
pub fn gate_of(records: &ByteLists, number: usize) -> u64
    ensures { result ≡ told (gate_of records.now number) }
{
    let mut place = MAGIC.len() as u64;
    for index in 0..records.len() {
        if index == number {
            return place;
        }
        place = place.saturating_add(AROUND as u64 + records.at(index).len() as u64);
    }
    place
}
