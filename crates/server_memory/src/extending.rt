ghost use Rattle.std.specs.Prelude.{◌≡◌, ◌<◌, ◌≤◌, ◌+◌, ℕ, length, map, All, IfOk, OnOk, OnErr};
ghost use Rattle.sync_recip.specs.Lists.{entry_of};
ghost use Rattle.sync_model.specs.Parts.{with_versions};
ghost use Rattle.server_memory.specs.Extending.{first_extended};

use crate::given::Given;
use std::alloc::Global;
use sync_base::NoMemory;
use sync_recip::{Recip, SharedEntry};

/// All entries with their versions, from that of the first on. They are shared and not copied.
pub(crate) fn with_versions(
    alloc: Global,
    first: u32,
    entries: &[SharedEntry],
) -> Result<Recip, NoMemory>
    requires { first + length entries.now ≤ 4294967295 }
    ensures { IfOk result (λ made. made ≡ with_versions first (map entry_of entries.now)) }
{
    let mut made = Recip::new(alloc);
    for (place, entry) in entries.iter().enumerate() {
        made.push_shared(first + place as u32, entry)?;
    }
    Ok(made)
}

/// Shares a new entry with all but its own ident, whose place is told, or to the first of them.
pub(crate) fn extend_others(
    idents: &mut [Given],
    own: usize,
    version: u32,
    entry: &SharedEntry,
) -> Result<(), NoMemory>
    requires { All (λ g. All (λ pair. pair.0 < version) g.reciprocal) idents.old }
    ensures ok { OnOk result (idents.new ≡ first_extended (length idents.old) own version (entry_of entry.now) 0 idents.old) }
    ensures part { OnErr result ((n : ℕ) × (idents.new ≡ first_extended n own version (entry_of entry.now) 0 idents.old)) }
{
    for place in 0..idents.len() {
        if place != own {
            idents[place].extend(version, entry)?;
        }
    }
    Ok(())
}
