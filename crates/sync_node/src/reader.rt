ghost use Rattle.std.specs.Prelude.{◌≡◌, ℕ, ◌<◌, ◌≤◌, List, Option, Err, IfOk, IfErr, IfSome, IsTrue, OnOk, Some};
ghost use Rattle.sync_io.specs.Faults.{HasRisen};
ghost use Rattle.sync_io.specs.Input.{max_input};
ghost use Rattle.sync_node.specs.Items.{Items, Read, IsFurther, EndsReading, IsReadStatus};

use std::alloc::Global;
use sync_io::{NoMemory, Source, Status};

/// A line or a frame of an input, and its number, counted from 1.
#[derive(Drop)]
pub struct Item {
    pub number: u32,
    pub bytes: Vec<u8>,
}

/// Reads the items of an input, one after another: its lines, or its frames.
pub trait ItemReader: Drop {
    /// The items of a source that has these bytes left, where it tells them.
    ghost items_of: { Option (List ℕ) → Option Items };

    /// Those that are ahead over such a source.
    ghost ahead: { Self → Option (List ℕ) → Option Items };

    /// How many were read, blank ones among them.
    ghost count: { Self → ℕ };

    /// It has refused nothing yet.
    ghost ready: { Self → Type 0 };

    /// A reader that has read nothing.
    fn new(alloc: Global) -> Result<Self, NoMemory>
        ensures ready { IfOk result ready }
        ensures ahead { IfOk result (λ made. (left : Option (List ℕ)) → ahead made left ≡ items_of left) };

    /// Whether a further item was read from the source already, as far as that is known: it comes then whatever the source has
    /// left.
    fn is_ahead(&self) -> bool
        ensures further { IsTrue result → (left : List ℕ) → IsFurther (ahead self.now (Some left)) };

    /// The next item, or None at the end of the input.
    fn next<S: Source>(&mut self, source: &mut S) -> Result<Option<Item>, Status>
        requires { ready self.old }
        ensures read { IfOk result (λ item. Read item (ahead self.old (S.left source.old)) (ahead self.new (S.left source.new))) }
        ensures stays_ready { OnOk result (ready self.new) }
        ensures counts { IfOk result (λ item. IfSome item (λ _. count self.old < count self.new)) }
        ensures few { count self.new ≤ max_input }
        ensures err { IfErr result (λ status. EndsReading status (ahead self.old (S.left source.old))) }
        ensures faults { S.faults source.old ≤ S.faults source.new }
        ensures cause { result ≡ Err Status.ReadFault → HasRisen (S.faults source.old) (S.faults source.new) }
        ensures only { IfErr result IsReadStatus };
}
