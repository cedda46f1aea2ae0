ghost use Rattle.std.specs.Prelude.{◌≡◌, ℕ, List, Result, Ok, Err, IfOk};
ghost use Rattle.sync_top.specs.declared.command.LineEnd.{LineEnd};

use std::alloc::Global;
use sync_data::NoMemory;

/// Why a run ends at a line.
#[derive(Clone, Copy, PartialEq, Eq)]
pub enum LineEnd {
    /// The line is none of the command's.
    BadLine,
    /// Memory ran out. The command isn't used again.
    NoMemory,
}

/// A command that answers the lines of an input, one after another.
pub trait Command {
    /// What answers: the state for which the command stands.
    ghost State: { Type 0 };

    /// The command stands for that state.
    ghost holds: { State → Self → Type 0 };

    /// What answers the line of this number, and the state afterwards; or why the run ends there.
    ghost answers: { State → ℕ → List ℕ → Result (List ℕ × State) LineEnd };

    /// What is written at the end of the input.
    ghost report: { State → List ℕ };

    /// Answers the line of this number.
    fn answer(&mut self, alloc: Global, number: u32, line: &[u8]) -> Result<Vec<u8>, LineEnd>
        ensures ok { (s : State) → holds s self.old
            → IfOk result (λ text. (t : State) × (answers s number line.now ≡ Ok (text.items, t)) × holds t self.new) }
        ensures end { (s : State) → holds s self.old → result ≡ Err LineEnd.BadLine
            → (answers s number line.now ≡ Err LineEnd.BadLine) × holds s self.new };

    /// What is written at the end of the input.
    fn report(&self) -> Result<Vec<u8>, NoMemory>
        ensures { (s : State) → holds s self.now → IfOk result (λ text. text.items ≡ report s) };
}
