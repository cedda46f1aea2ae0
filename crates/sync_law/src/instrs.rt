use sync_theory::Merge;

/// The instructions, the states and the rule table, to which the theory of merging applies.
pub struct Instrs;

impl Merge for Instrs {
    ghost use Rattle.sync_data.specs.declared.instr.Instr.{Instr};
    ghost use Rattle.sync_base.specs.declared.answers.Mismatch.{Mismatch};
    ghost use Rattle.sync_base.specs.States.{State, IsState, no_state};
    ghost use Rattle.sync_base.specs.Checks.{act};
    ghost use Rattle.sync_base.specs.Lemmas.Whole.{empty_is_state};
    ghost use Rattle.sync_law.specs.Instrs.{meet};
    ghost use Rattle.sync_law.specs.Law.{law};

    ghost Instr = { Instr };

    ghost State = { State };

    ghost Mismatch = { Mismatch };

    ghost act = { act };

    ghost meet = { meet };

    ghost Fits = { IsState };

    ghost first = { no_state };

    ghost first_fits = { empty_is_state };

    ghost law = { law };
}
