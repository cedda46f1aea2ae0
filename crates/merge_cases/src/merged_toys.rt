//! A toy, numbers on a sheet, is merged through the bound.

ghost use Rattle.std.specs.Prelude.{Bool};
ghost use Rattle.sync_theory.specs.Lists.{ListsTwoSided};
ghost use Rattle.sync_theory.specs.Toy.{AnySheet, toy_act, toy_meet};

use sync_theory::{
    Merge, changesets_agree, lists_agree, one_crossing, prefixes_rebase_alike,
    reciprocal_lists_settle, restricted_lists_cross_alike, worlds_converge,
};

struct Toys;

impl Merge for Toys {
    ghost use Rattle.std.specs.Prelude.{ℕ};
    ghost use Rattle.sync_theory.specs.Toy.{AnySheet, Sheet, Toy, blank, toy_act, toy_meet};
    ghost use Rattle.sync_theory.specs.ToyLaw.{toy_law};

    ghost Instr = { Toy };

    ghost State = { Sheet };

    ghost Mismatch = { ℕ };

    ghost act = { toy_act };

    ghost meet = { toy_meet };

    ghost Fits = { AnySheet };

    ghost first = { blank };

    ghost first_fits = { tt };

    ghost law = { toy_law };
}

/// The law of lists, at the toy itself.
fn toy_lists_agree()
    ensures { (left_later : Bool) → ListsTwoSided AnySheet toy_act (λ a b. toy_meet a b left_later) }
{
    lists_agree::<Toys>()
}

/// All laws of merging are called.
pub fn a_toy_can_be_merged() {
    toy_lists_agree();
    one_crossing::<Toys>();
    prefixes_rebase_alike::<Toys>();
    changesets_agree::<Toys>();
    worlds_converge::<Toys>();
    reciprocal_lists_settle::<Toys>();
    restricted_lists_cross_alike::<Toys>();
}
