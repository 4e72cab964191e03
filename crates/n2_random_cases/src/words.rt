//! Random numbers.

ghost use Rattle.std.specs.Prelude.{◌<◌};

use rand_core::SeedableRng;
use rand_core::utils::NextWord;
use rand_pcg::Lcg64Xsh32;

/// A generator of numbers.
#[derive(Drop)]
pub struct Words {
    words: Lcg64Xsh32,
}

impl Words {
    /// The generator of a seed.
    pub fn of_seed(seed: u64) -> Words {
        Words {
            words: Lcg64Xsh32::seed_from_u64(seed),
        }
    }

    /// The next number below a bound.
    pub fn below(&mut self, bound: u32) -> u32
        requires { 0 < bound }
        ensures { result < bound }
    {
        self.words.next_word() % bound
    }

    /// True once in so many times.
    pub fn once_in(&mut self, times: u32) -> bool
        requires { 0 < times }
    {
        self.below(times) == 0
    }

    /// The offset of one of the first 16 words of a region.
    pub fn word_at(&mut self) -> u16
        ensures { result < 64 }
    {
        4 * self.below(16) as u16
    }
}
