ghost use Rattle.std.specs.Prelude.{◌≡◌, ◌++◌, IfOk, OnOk};
ghost use Rattle.sync_rivals.specs.Marks.{all_rivals, Knows};

use super::codes::codes_of;
use std::alloc::Global;
use sync_base::{Instr, NoMemory};

/// The codes of the places under which rivals of these instructions are listed. They are so of what is left of them, too.
pub(crate) fn rivals_of(alloc: Global, instrs: &[Instr]) -> Result<Vec<u64>, NoMemory>
    ensures codes { IfOk result (λ codes. codes.items ≡ all_rivals instrs.now) }
    ensures known { IfOk result (λ codes. Knows codes.items instrs.now) }
{
    let mut codes = Vec::new(alloc);
    for instr in instrs {
        push_all(&mut codes, codes_of(instr).rivals)?;
    }
    Ok(codes)
}

fn push_all(codes: &mut Vec<u64>, more: [u64; 3]) -> Result<(), NoMemory>
    ensures { OnOk result (codes.new.items ≡ codes.old.items ++ more) }
{
    if codes.extend_from_slice(&more).is_err() {
        return Err(NoMemory);
    }
    Ok(())
}
