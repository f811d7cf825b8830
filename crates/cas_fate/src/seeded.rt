//! A fate by the words of a generator.
ghost use Rattle.std.specs.Prelude.{◌≡◌, ◌≤◌, ◌<◌, ℕ, IfSome};
ghost use Rattle.cas_fate.specs.Harms.{HarmsByCount, counted};

use crate::{Fate, Leg, Verdict};
use cas_ballot::AcceptorId;
use cas_base::raised;
use rand_core::SeedableRng;
use rand_core::utils::NextWord;
use rand_pcg::Pcg32;

/// A fate by a seed. It answers the same at each run, whatever the frames are, and never holds one back.
#[derive(Debug, Drop)]
pub struct Seeded {
    random: Pcg32,
    harms: u64,
}

impl Seeded {
    ghost use Rattle.cas_fate.specs.Seeded.{generator_of_seed, random_of, harms_of};

    /// The fate of this seed.
    pub fn new(seed: u64) -> Seeded
        ensures random { random_of result ≡ generator_of_seed seed }
        ensures harms { harms_of result ≡ 0 }
    {
        Seeded {
            random: Pcg32::seed_from_u64(seed),
            harms: 0,
        }
    }
}

impl Fate for Seeded {
    ghost use Rattle.cas_fate.specs.Seeded.{random_of, harms_of, drawn_verdict, drawn_stray};

    ghost harm_count = { harms_of };

    fn verdict(&mut self, _leg: Leg, _peer: AcceptorId) -> Verdict
        ensures by_count { HarmsByCount result (harms_of self.old) (harms_of self.new) }
        ensures drawn { (result, random_of self.new) ≡ drawn_verdict (random_of self.old) }
        ensures harms { harms_of self.new ≡ counted result (harms_of self.old) }
    {
        let verdict = match self.random.next_word() % 100 {
            0..=89 => Verdict::Deliver,
            90..=93 => Verdict::Lose,
            94..=96 => Verdict::Twice,
            _ => Verdict::Late,
        };
        if verdict.is_harm() {
            self.harms = raised(self.harms);
        }
        verdict
    }

    fn harms(&self) -> u64 {
        self.harms
    }

    fn stray(&mut self, late: usize) -> Option<usize>
        ensures within { IfSome result (λ place. place < late) }
        ensures drawn { (result, random_of self.new) ≡ drawn_stray late (random_of self.old) }
        ensures harms { harms_of self.new ≡ harms_of self.old }
    {
        let word = self.random.next_word();
        if late == 0 || word % 16 != 0 {
            return None;
        }
        Some(self.random.next_word() as usize % late)
    }
}
