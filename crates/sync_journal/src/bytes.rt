// The bytes of a journal that is made whole, in memory.
ghost use Rattle.std.specs.Prelude.{◌≡◌, ◌↔◌, ◌++◌, ◌∷◌, [], ◌<◌, ◌≤◌, List, ℕ, length, IfOk, IfErr, OnOk, IsErrOf, true};
ghost use Rattle.sync_journal.specs.Files.{AreBytes, IsFile};
ghost use Rattle.sync_journal.specs.Records.{behind_gate, is_note, longest};

use crate::journal::JournalRefusal;
use crate::layout::{CLOSED, LONGEST, MAGIC, OPEN, is_note};
use byteorder::{BigEndian, ByteOrder};
use std::alloc::{AllocError, Global};

/// The bytes of a journal that is made whole, in memory (docs/FORMATS.md, "The journal").
#[derive(Drop)]
pub struct JournalBytes {
    // up to the shut gate, which isn't put yet
    out: Vec<u8>,
}

fn put(out: &mut Vec<u8>, bytes: &[u8]) -> Result<(), JournalRefusal>
    ensures put { OnOk result (out.new.items ≡ out.old.items ++ bytes.now) }
    ensures memory { IfErr result (λ why. why ≡ JournalRefusal.NoMemory) }
{
    match out.extend_from_slice(bytes) {
        Ok(()) => Ok(()),
        Err(_) => Err(JournalRefusal::NoMemory),
    }
}

/// Puts a record behind an open gate.
#[tactic(auto, unfolding(crate::specs::Records::size_bytes))]
fn put_behind_gate(out: &mut Vec<u8>, bytes: &[u8]) -> Result<(), JournalRefusal>
    requires { length bytes.now ≤ longest }
    ensures put { OnOk result (out.new.items ≡ out.old.items ++ behind_gate bytes.now) }
    ensures memory { IfErr result (λ why. why ≡ JournalRefusal.NoMemory) }
{
    let mut size = [0; 4];
    BigEndian::write_u32(&mut size, bytes.len() as u32);
    put(out, &[OPEN])?;
    put(out, &size)?;
    put(out, bytes)
}

impl JournalBytes {
    /// A journal without records.
    pub fn new(alloc: Global) -> Result<JournalBytes, AllocError>
        ensures { IfOk result (AreBytes []) }
    {
        let mut out = Vec::new(alloc);
        out.extend_from_slice(&MAGIC)?;
        Ok(JournalBytes { out })
    }

    /// Puts a record behind those so far. Errors: RecordTooLong, IsNote, and nothing changed; or NoMemory.
    pub fn put(&mut self, bytes: &[u8]) -> Result<(), JournalRefusal>
        ensures put { (records : List (List ℕ)) → AreBytes records self.old → OnOk result (AreBytes (records ++ bytes.now ∷ []) self.new) }
        ensures too_long { IsErrOf result JournalRefusal.RecordTooLong ↔ (longest < length bytes.now) }
        ensures note { IsErrOf result JournalRefusal.IsNote ↔ ((length bytes.now ≤ longest) × (is_note bytes.now ≡ true)) }
    {
        if bytes.len() > LONGEST {
            return Err(JournalRefusal::RecordTooLong);
        }
        if is_note(bytes) {
            return Err(JournalRefusal::IsNote);
        }
        put_behind_gate(&mut self.out, bytes)
    }

    /// The bytes, with the shut gate behind the last record.
    pub fn end(self) -> Result<Vec<u8>, AllocError>
        ensures { (records : List (List ℕ)) → AreBytes records self → IfOk result (λ bytes. IsFile records bytes.items) }
    {
        let mut out = self.out;
        out.push(CLOSED)?;
        Ok(out)
    }
}
