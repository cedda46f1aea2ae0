ghost use Rattle.std.specs.Prelude.{refl};
ghost use Rattle.std.specs.Ordering.{eq_by_cmp, as_partial_cmp};
ghost use Rattle.std.specs.Cmp.{partial_equiv_from_equiv, eq_by_cmp_equiv, partial_order_from_total};
ghost use Rattle.sync_rivals.specs.Marks.{mark_cmp, mark_cmp_total};

use std::cmp::Ordering;

/// The changeset of that number is listed under a place of that code.
#[derive(Clone, Copy)]
pub(crate) struct Mark {
    pub(crate) code: u64,
    pub(crate) number: u64,
}

impl PartialEq for Mark {
    ghost eq = { eq_by_cmp mark_cmp };

    ghost laws = { partial_equiv_from_equiv (eq_by_cmp_equiv mark_cmp_total) };

    fn eq(&self, other: &Mark) -> bool {
        self.cmp(other).is_eq()
    }
}

impl Eq for Mark {
    ghost laws = { eq_by_cmp_equiv mark_cmp_total };
}

impl PartialOrd for Mark {
    ghost partial_cmp = { as_partial_cmp mark_cmp };

    ghost laws = { partial_order_from_total mark_cmp_total };

    fn partial_cmp(&self, other: &Mark) -> Option<Ordering> {
        Some(self.cmp(other))
    }
}

impl Ord for Mark {
    ghost cmp = { mark_cmp };

    ghost total = { mark_cmp_total };

    ghost matches_partial_cmp = { λ x y. refl };

    ghost matches_eq = { λ x y. refl };

    fn cmp(&self, other: &Mark) -> Ordering {
        self.code
            .cmp(&other.code)
            .then(self.number.cmp(&other.number))
    }
}
