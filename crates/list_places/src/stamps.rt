ghost use Rattle.std.specs.Prelude.{◌≡◌};
ghost use Rattle.sync_theory.specs.Changesets.{later_stamp};

use sync_base::Stamp;

/// Whether the left stamp is the later one.
pub fn is_later(left: Stamp, right: Stamp) -> bool
    ensures { result ≡ later_stamp left.ms left.ident right.ms right.ident }
{
    sync_law::stamps_tell();
    left > right
}
