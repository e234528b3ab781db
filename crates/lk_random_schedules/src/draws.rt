// A generator of pseudo-random numbers.
ghost use Rattle.std.specs.Prelude.{◌<◌};

use rand_core::{Rng, SeedableRng};
use rand_pcg::Lcg64Xsh32;

/// A generator of pseudo-random numbers. The same seed gives the same numbers on any machine.
#[derive(Drop)]
pub struct Draws {
    words: Lcg64Xsh32,
}

impl Draws {
    /// Returns the generator of this seed.
    pub fn of(start: u64) -> Draws {
        Draws {
            words: Lcg64Xsh32::seed_from_u64(start),
        }
    }

    /// Draws a number from 0 to `bound - 1`, nearly uniformly: a schedule needs no more.
    pub fn below(&mut self, bound: usize) -> usize
        requires { 0 < bound }
        ensures { result < bound }
    {
        self.words.next_u32() as usize % bound
    }

    /// Draws true in one of `cases` cases.
    pub fn is_one_of(&mut self, cases: usize) -> bool
        requires { 0 < cases }
    {
        self.below(cases) == 0
    }

    /// Draws a byte.
    pub fn byte(&mut self) -> u8 {
        self.below(256) as u8
    }
}
