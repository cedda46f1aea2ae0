ghost use Rattle.std.specs.Prelude.{◌≡◌, IfOk, refl};
ghost use Rattle.std.specs.Ordering.{eq_by_cmp, as_partial_cmp};
ghost use Rattle.std.specs.Cmp.{partial_equiv_from_equiv, eq_by_cmp_equiv, partial_order_from_total};
ghost use Rattle.sync_data.specs.Stamps.{stamp_cmp, stamp_cmp_total};

use super::changeset::Changeset;
use super::memory::NoMemory;
use std::cmp::Ordering;

/// The number of a client file, which the server gives; 0 stands for none.
pub type Ident = u32;

/// When and by whom a changeset was made: of two changesets the later one has the greater stamp.
#[derive(Clone, Copy)]
pub struct Stamp {
    pub ms: u64,
    pub ident: Ident,
}

/// A changeset of a history: the client that made it, and the changeset's number among that client's.
#[derive(Drop)]
pub struct Entry {
    pub origin: Ident,
    pub number: u32,
    pub changes: Changeset,
}

impl Entry {
    /// An equal entry.
    pub fn copy(&self) -> Result<Entry, NoMemory>
        ensures equal { IfOk result (λ copy. copy ≡ self.now) }
    {
        Ok(Entry {
            origin: self.origin,
            number: self.number,
            changes: self.changes.copy()?,
        })
    }
}

impl PartialEq for Stamp {
    ghost eq = { eq_by_cmp stamp_cmp };

    ghost laws = { partial_equiv_from_equiv (eq_by_cmp_equiv stamp_cmp_total) };

    fn eq(&self, other: &Stamp) -> bool {
        self.cmp(other).is_eq()
    }
}

impl Eq for Stamp {
    ghost laws = { eq_by_cmp_equiv stamp_cmp_total };
}

impl PartialOrd for Stamp {
    ghost partial_cmp = { as_partial_cmp stamp_cmp };

    ghost laws = { partial_order_from_total stamp_cmp_total };

    fn partial_cmp(&self, other: &Stamp) -> Option<Ordering> {
        Some(self.cmp(other))
    }
}

impl Ord for Stamp {
    ghost cmp = { stamp_cmp };

    ghost total = { stamp_cmp_total };

    ghost matches_partial_cmp = { λ x y. refl };

    ghost matches_eq = { λ x y. refl };

    fn cmp(&self, other: &Stamp) -> Ordering {
        self.ms.cmp(&other.ms).then(self.ident.cmp(&other.ident))
    }
}
