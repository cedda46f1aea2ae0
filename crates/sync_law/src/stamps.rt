ghost use Rattle.std.specs.Prelude.{◌≡◌};
ghost use Rattle.std.specs.Ordering.{is_gt};
ghost use Rattle.sync_data.specs.declared.entry.Stamp.{Stamp};
ghost use Rattle.sync_data.specs.Stamps.{stamp_cmp};
ghost use Rattle.sync_theory.specs.Changesets.{later_stamp};

/// The order of stamps is that of the theory: the later changeset has the greater stamp.
pub fn stamps_tell()
    ensures { (a b : Stamp) → later_stamp a.ms a.ident b.ms b.ident ≡ is_gt (stamp_cmp a b) }
{}
