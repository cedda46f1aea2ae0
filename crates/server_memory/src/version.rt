ghost use Rattle.std.specs.Prelude.{◌≡◌};
ghost use Rattle.sync_model.specs.Profile.{needs};
ghost use Rattle.sync_exchange.specs.Profile.{the_profile};

use sync_base::Instr;
use sync_codec::any_needs_second;

/// Whether one of the instructions isn't in version 1 of the bytes.
pub(crate) fn needs_second(instrs: &[Instr]) -> bool
    ensures { result ≡ needs the_profile instrs.now }
{
    any_needs_second(instrs)
}
