ghost use Rattle.std.specs.Prelude.{◌≡◌, ◌<◌};
ghost use Rattle.sync_gen.specs.Draws.{next, draw};

use std::marker::Model;

const MULTIPLIER: u64 = 6_364_136_223_846_793_005;

const INCREMENT: u64 = 1_442_695_040_888_963_407;

/// A generator of turns and edits. All that it gives follows from its seed and the stores that it is shown.
#[derive(Drop)]
pub struct Gen {
    state: u64,
}

impl Model for Gen {
    ghost use Rattle.std.specs.Prelude.{ℕ};

    ghost Value = { ℕ };

    ghost view = { λ g. g.state };
}

impl Gen {
    /// The generator of a seed.
    pub fn new(seed: u64) -> Gen
        ensures { result ≡ seed }
    {
        Gen { state: seed }
    }

    /// Draws a number below `bound`.
    #[tactic(auto, unfolding(crate::specs::Draws::next, crate::specs::Draws::draw))]
    pub fn draw(&mut self, bound: u32) -> u32
        requires { 0 < bound }
        ensures number { result ≡ (draw bound self.old).0 }
        ensures state { self.new ≡ (draw bound self.old).1 }
        ensures below { result < bound }
    {
        self.step();
        ((self.state >> 33) % bound as u64) as u32
    }

    #[tactic(auto, unfolding(crate::specs::Draws::next))]
    fn step(&mut self)
        ensures { self.new ≡ next self.old }
    {
        self.state = self.state.wrapping_mul(MULTIPLIER).wrapping_add(INCREMENT);
    }
}
