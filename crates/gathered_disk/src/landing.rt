// How what was gathered comes to the disk below: all that stands behind the gate, and then the gate.
ghost use Rattle.std.specs.Prelude.{◌≡◌, ◌+◌, ◌^◌, ◌<◌, ◌≤◌, ℕ, List, length, None, OnOk, Some};
ghost use Rattle.sync_disk.specs.Disk.{Told, Only, LeavesOnly, HasCause};
ghost use Rattle.gathered_disk.specs.Gathered.{gathered, NoneOrAll};

use sync_disk::{Disk, DiskRefusal};

/// The byte of an open gate.
pub const OPEN: u8 = 1;

/// Writes the bytes behind a gate, syncs, opens the gate where it is to be opened, and syncs.
pub fn land_bytes<D: Disk>(
    disk: &mut D,
    gate: u64,
    behind: &[u8],
    opened: bool,
) -> Result<(), DiskRefusal>
    requires within { Told (D.content disk.old) (λ b. gate < length b) }
    requires fits { gate + 1 + length behind.now ≤ 2 ^ 63 }
    ensures landed { Told (D.content disk.old) (λ b. OnOk result (D.content disk.new ≡ Some (gathered b gate behind.now opened))) }
    ensures untold { D.content disk.old ≡ None → D.content disk.new ≡ None }
    ensures durable { Told (D.content disk.old) (λ b. OnOk result (Only (gathered b gate behind.now opened) (D.images disk.new))) }
    ensures any_moment { Told (D.content disk.old) (λ b. Only b (D.images disk.old) → LeavesOnly D.moment D.images_since disk.old disk.new (NoneOrAll b gate (gathered b gate behind.now opened))) }
    ensures few { Told (D.content disk.old) (λ b. length (D.strokes disk.new) ≤ length (D.strokes disk.old) + 4) }
    ensures origin { D.origin disk.new ≡ D.origin disk.old }
    ensures cause { HasCause (D.faults disk.old) (D.faults disk.new) result }
{
    disk.write_at(gate + 1, behind)?;
    disk.sync()?;
    if opened {
        disk.write_at(gate, &[OPEN])?;
        disk.sync()?;
    }
    Ok(())
}
