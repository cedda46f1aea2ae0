ghost use Rattle.std.specs.Prelude.{◌≡◌, map, IfOk};
ghost use Rattle.sync_codec.specs.Spelling.{spelling};
ghost use Rattle.snapshot_law.specs.Build.{build};
ghost use Rattle.sync_exchange.specs.Profile.{fits_changeset};

use crate::lists::put;
use std::alloc::Global;
use sync_base::{Blob, Changeset, NoMemory};
use sync_codec::encode;
use sync_snapshot::build;
use sync_store::Store;

/// The bytes of a changeset.
pub(crate) fn body_of(alloc: Global, changes: &Changeset) -> Result<Blob, NoMemory>
    ensures { IfOk result (λ body. body ≡ spelling changes.now.instrs) }
{
    let bytes = match encode(alloc, changes) {
        Ok(bytes) => bytes,
        Err(_) => return Err(NoMemory),
    };
    Blob::new(alloc, &bytes)
}

/// The bytes of the parts of a store's state.
pub(crate) fn part_bodies(alloc: Global, objects: &Store) -> Result<Vec<Blob>, NoMemory>
    ensures { IfOk result (λ bodies. bodies.items ≡ map spelling (build fits_changeset objects.now)) }
{
    let parts = build(alloc, objects)?;
    let bodies = bodies_of(alloc, parts.as_slice())?;
    Ok(bodies)
}

fn bodies_of(alloc: Global, parts: &[Changeset]) -> Result<Vec<Blob>, NoMemory>
    ensures { IfOk result (λ bodies. bodies.items ≡ map (λ part. spelling part.instrs) parts.now) }
{
    let mut bodies = Vec::new(alloc);
    for part in parts {
        let body = body_of(alloc, part)?;
        put(&mut bodies, body)?;
    }
    Ok(bodies)
}
