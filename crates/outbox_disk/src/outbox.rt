// Strokes as bytes: docs/FORMATS.md, "The outbox".
ghost use Rattle.std.specs.Prelude.{◌≡◌, ◌++◌, List, ℕ, length, take, OnOk, OnErr};
ghost use Rattle.sync_disk.specs.Strokes.Act.{Write, Sync};
ghost use Rattle.outbox_disk.specs.Outbox.{act_bytes};

use std::alloc::AllocError;

/// The first byte of a write.
const WRITE: u8 = 0x57;

/// A sync.
const SYNC: u8 = 0x53;

/// Adds a write. Where memory runs out, something of it may stand behind what was there.
pub fn add_write(outbox: &mut Vec<u8>, place: u64, bytes: &[u8]) -> Result<(), AllocError>
    ensures added { OnOk result (outbox.new.items ≡ outbox.old.items ++ act_bytes (Write place bytes.now)) }
    ensures front { OnErr result (take (length outbox.old.items) outbox.new.items ≡ outbox.old.items) }
{
    outbox.push(WRITE)?;
    outbox.extend_from_slice(&place.to_le_bytes())?;
    outbox.extend_from_slice(&(bytes.len() as u64).to_le_bytes())?;
    outbox.extend_from_slice(bytes)?;
    Ok(())
}

/// Adds a sync. Where memory runs out, nothing changes.
pub fn add_sync(outbox: &mut Vec<u8>) -> Result<(), AllocError>
    ensures added { OnOk result (outbox.new.items ≡ outbox.old.items ++ act_bytes Sync) }
    ensures same { OnErr result (outbox.new.items ≡ outbox.old.items) }
{
    outbox.push(SYNC)?;
    Ok(())
}
