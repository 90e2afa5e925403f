//! Numbers that look random, the same on each run.

#![tactic(auto)]

ghost use Rattle.std.specs.Prelude.{◌≡◌, ◌+◌, ◌*◌, ◌%◌, ◌^◌};

use std::marker::Model;

/// A linear congruential generator. The low bits of what it draws repeat soon: use the high ones.
#[derive(Drop)]
pub struct Generator {
    state: u32,
}

/// A generator is seen as the number that it drew last, or as its seed.
impl Model for Generator {
    ghost use Rattle.std.specs.Prelude.{ℕ};

    ghost Value = { ℕ };

    ghost view = { λ g. g.state };
}

impl Generator {
    /// A generator that begins with this seed.
    pub fn new(seed: u32) -> Generator
        ensures { result ≡ seed }
    {
        Generator { state: seed }
    }

    /// The next number.
    pub fn draw(&mut self) -> u32
        ensures drawn { result ≡ (self.old * 1664525 + 1013904223) % 2 ^ 32 }
        ensures state { self.new ≡ result }
    {
        let product = self.state.wrapping_mul(1_664_525);
        self.state = product.wrapping_add(1_013_904_223);
        self.state
    }
}
