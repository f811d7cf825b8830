//! A generator of the lines of a load.
ghost use Rattle.std.specs.Prelude.{◌≡◌, ◌≤◌, ◌<◌, ℕ};
ghost use Rattle.cas_fate.specs.Generator.{drawn_line};
ghost use Rattle.cas_fate.specs.Seeded.{generator_of_seed};

use rand_core::SeedableRng;
use rand_core::utils::NextWord;
use rand_pcg::Pcg32;
use std::marker::Model;

/// A line of a load, in numbers.
#[derive(Clone, Copy, Debug, PartialEq, Eq)]
pub struct Drawn {
    /// The caller, from 1 to the number of proposers.
    pub caller: u8,
    /// The key's number, from 0 to 31.
    pub key: u8,
    /// What the line does, from 0 to 9.
    pub kind: u8,
}

/// Draws lines by a seed, the same at each run. It is seen as its generator of words.
#[derive(Debug, Drop)]
pub struct Generator {
    random: Pcg32,
}

impl Model for Generator {
    ghost use Rattle.rand_pcg.specs.Lcg.{Lcg};

    ghost Value = { Lcg };

    ghost view = { λ generator. generator.random };
}

impl Generator {
    /// The generator of this seed.
    pub fn new(seed: u64) -> Generator
        ensures { result ≡ generator_of_seed seed }
    {
        Generator {
            random: Pcg32::seed_from_u64(seed),
        }
    }

    /// Draws a line for one of so many proposers, which are 1 to 16.
    pub fn next(&mut self, proposers: u8) -> Drawn
        requires some { 1 ≤ proposers }
        requires few { proposers ≤ 16 }
        ensures drawn { (result, self.new) ≡ drawn_line proposers self.old }
        ensures caller { (1 ≤ result.caller) × (result.caller ≤ proposers) }
        ensures key { result.key < 32 }
        ensures kind { result.kind < 10 }
    {
        let caller = self.random.next_word() % u32::from(proposers);
        let key = self.random.next_word() % 32;
        let kind = self.random.next_word() % 10;
        Drawn {
            caller: 1 + caller as u8,
            key: key as u8,
            kind: kind as u8,
        }
    }
}
