ghost use Rattle.std.specs.Prelude.{◌≡◌, Some, IfOk};
ghost use Rattle.sync_data.specs.declared.instr.Instr.{Instr};
ghost use Rattle.sync_model.specs.Parts.{Given as GivenParts, at_ident};
ghost use Rattle.server_memory.specs.Retiring.{Retires};

use crate::kept::Kept;
use crate::refusal::Refusal;
use sync_base::Ident;

/// An ident that can be retired for another, or is already: the number of its last change in the history, and whether
/// it isn't yet.
#[derive(Clone, Copy)]
pub struct Retirement {
    pub number: u32,
    pub is_new: bool,
}

impl Kept {
    ghost use Rattle.server_memory.specs.Kept.{parts};

    /// Whether an ident can be retired for another.
    pub fn retirement(&self, ident: Ident, by: Ident) -> Result<Retirement, Refusal>
        ensures says { Retires result (parts self.now) ident by }
        ensures given { IfOk result (λ r. (g : GivenParts Instr) × (at_ident ident self.now.history.idents ≡ Some g)) }
    {
        let given = self.history.given();
        let Some(retiring) = self.history.at(ident) else {
            return Err(Refusal::NoSuchIdent { given });
        };
        if self.history.at(by).is_none() {
            return Err(Refusal::NoSuchIdent { given });
        }
        if ident == by {
            return Err(Refusal::SelfRetire { ident });
        }
        let number = retiring.count();
        match retiring.heir() {
            None => Ok(Retirement {
                number,
                is_new: true,
            }),
            Some(other) => {
                if other == by {
                    Ok(Retirement {
                        number,
                        is_new: false,
                    })
                } else {
                    Err(Refusal::RetiredBy { by: other })
                }
            }
        }
    }
}
