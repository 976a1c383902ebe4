//! Draws: numbers that follow from a seed.

ghost use Rattle.std.specs.Prelude.{◌≡◌, ◌<◌};
ghost use Rattle.hp_model.specs.Draws.{state_after, draw_of};

/// Numbers that are drawn one after another, all from one seed: by a linear congruence modulo
/// 2 ^ 64, with the constants of Knuth's MMIX. Which numbers a mixed schedule and a generated script
/// draw is this project's own.
#[derive(Clone, Copy, Debug, PartialEq, Eq)]
pub struct Draws {
    /// What the next draw steps from.
    pub state: u64,
}

impl Draws {
    /// The draws of a seed, which may be any. Takes no memory.
    pub fn new(seed: u64) -> Draws
        ensures { result.state ≡ seed }
    {
        Draws { state: seed }
    }

    /// The next draw: below `below`, which is at least 1. It is taken from the upper 31 bits of the
    /// state that the draw steps to. Takes no memory.
    pub fn draw(&mut self, below: u32) -> u32
        requires { 0 < below }
        ensures state { self.new.state ≡ state_after self.old.state }
        ensures drawn { result ≡ draw_of below (state_after self.old.state) }
        ensures below { result < below }
    {
        self.state = self
            .state
            .wrapping_mul(6_364_136_223_846_793_005)
            .wrapping_add(1_442_695_040_888_963_407);
        ((self.state >> 33) % below as u64) as u32
    }
}
