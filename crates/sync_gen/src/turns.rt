ghost use Rattle.std.specs.Prelude.{◌≡◌, ◌≤◌};
ghost use Rattle.sync_gen.specs.Turns.{kind_of, turn_of};

use super::generator::Gen;

/// What a client does in a turn.
#[derive(Clone, Copy, PartialEq, Eq)]
pub enum TurnKind {
    Restart,
    Edit { ms: u64 },
    Push,
    Pull,
}

/// A turn: a client from 1 to 8, and what it does.
#[derive(Clone, Copy, PartialEq, Eq)]
pub struct Turn {
    pub client: u32,
    pub kind: TurnKind,
}

impl Gen {
    /// The turn of this number, counted from 1.
    pub fn turn(&mut self, turn: u32) -> Turn
        ensures turn { result ≡ (turn_of turn self.old).0 }
        ensures state { self.new ≡ (turn_of turn self.old).1 }
        ensures client { (1 ≤ result.client) × (result.client ≤ 8) }
    {
        let client = self.draw(8) + 1;
        let kind = self.kind(turn);
        Turn { client, kind }
    }

    fn kind(&mut self, turn: u32) -> TurnKind
        ensures kind { result ≡ (kind_of turn self.old).0 }
        ensures state { self.new ≡ (kind_of turn self.old).1 }
    {
        match self.draw(1000) {
            0 => TurnKind::Restart,
            1..=624 => TurnKind::Edit {
                ms: 1000 + turn as u64 + self.draw(50) as u64,
            },
            625..=812 => TurnKind::Push,
            _ => TurnKind::Pull,
        }
    }
}
