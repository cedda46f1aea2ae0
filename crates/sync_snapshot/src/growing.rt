ghost use Rattle.std.specs.Prelude.{◌≡◌, bytes_eq, false, Err, IfOk, slice_get};
ghost use Rattle.std.specs.Option.{option_map_or};
ghost use Rattle.sync_base.specs.States.{no_state};
ghost use Rattle.sync_codec.specs.Spelling.{spelling};
ghost use Rattle.sync_model.specs.Snapshots.{grown, run_parts, part_differs};
ghost use Rattle.sync_exchange.specs.Profile.{the_profile};
ghost use Rattle.sync_snapshot.specs.Grown.{lists_of, Names, Grows};

use super::building::build;
use std::alloc::Global;
use sync_base::{Changeset, NoMemory};
use sync_codec::encode;
use sync_store::{AllRefusal, Store};

/// Why no store was grown.
#[derive(Clone, Copy, Debug, PartialEq, Eq)]
pub enum GrowRefusal {
    /// The changesets aren't those that `build` makes of a state. It is the first that isn't as `build` of the state that
    /// they lead to has it, or, where they lead to none, the first with an instruction that doesn't act.
    BadPart { place: u32 },
    /// Memory ran out.
    NoMemory,
}

/// The store of which `build` makes these changesets. Times aren't looked at. `BadPart` comes exactly where they aren't
/// those of a state.
pub fn grown(alloc: Global, parts: &[Changeset]) -> Result<Store, GrowRefusal>
    ensures grown { Grows result (grown the_profile (lists_of parts.now)) }
{
    let objects = apply_parts(alloc, parts)?;
    let built = match build(alloc, &objects) {
        Ok(built) => built,
        Err(NoMemory) => return Err(GrowRefusal::NoMemory),
    };
    match first_difference(alloc, parts, built.as_slice()) {
        Ok(None) => Ok(objects),
        Ok(Some(place)) => Err(bad_part(place)),
        Err(NoMemory) => Err(GrowRefusal::NoMemory),
    }
}

/// The store that the instructions of all parts lead to.
fn apply_parts(alloc: Global, parts: &[Changeset]) -> Result<Store, GrowRefusal>
    ensures { Grows result (run_parts the_profile 0 (lists_of parts.now) no_state) }
{
    let mut objects = match Store::new(alloc) {
        Ok(objects) => objects,
        Err(NoMemory) => return Err(GrowRefusal::NoMemory),
    };
    for (place, part) in parts.iter().enumerate() {
        match objects.apply_all(part) {
            Ok(()) => {}
            Err(AllRefusal::Break { place: _, cause: _ }) => return Err(bad_part(place)),
            Err(AllRefusal::NoMemory) => return Err(GrowRefusal::NoMemory),
        }
    }
    Ok(objects)
}

/// The place of the first part that isn't as the other list has it, or of the last one where that list goes on.
fn first_difference(
    alloc: Global,
    parts: &[Changeset],
    built: &[Changeset],
) -> Result<Option<usize>, NoMemory>
    ensures { IfOk result (λ place. place ≡ part_differs the_profile 0 (lists_of parts.now) (lists_of built.now)) }
{
    for (place, part) in parts.iter().enumerate() {
        if !is_at(alloc, part, built, place)? {
            return Ok(Some(place));
        }
    }
    if parts.len() < built.len() {
        return Ok(Some(parts.len().saturating_sub(1)));
    }
    Ok(None)
}

/// Whether the other list has this part at that place.
fn is_at(
    alloc: Global,
    part: &Changeset,
    built: &[Changeset],
    place: usize,
) -> Result<bool, NoMemory>
    ensures { IfOk result (λ is. is ≡ option_map_or (λ other. bytes_eq (spelling part.now.instrs) (spelling other.instrs)) (slice_get built.now place) false) }
{
    match built.get(place) {
        Some(other) => is_same_part(alloc, part, other),
        None => Ok(false),
    }
}

/// Whether two changesets have the same instructions, by their spellings.
fn is_same_part(alloc: Global, part: &Changeset, other: &Changeset) -> Result<bool, NoMemory>
    ensures { IfOk result (λ same. same ≡ bytes_eq (spelling part.now.instrs) (spelling other.now.instrs)) }
{
    // Equal changesets needn't be spelled.
    if part == other {
        return Ok(true);
    }
    let bytes = encode(alloc, part)?;
    let others = encode(alloc, other)?;
    Ok(bytes.as_slice() == others.as_slice())
}

/// The refusal that names a part.
fn bad_part(place: usize) -> GrowRefusal
    ensures { Names result (Err place) }
{
    match u32::try_from(place) {
        Ok(place) => GrowRefusal::BadPart { place },
        Err(_) => GrowRefusal::NoMemory,
    }
}
