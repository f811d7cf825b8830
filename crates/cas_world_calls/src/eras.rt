//! The eras in which the proposers work.

ghost use Rattle.std.specs.Prelude.{◌≡◌, ◌≤◌, replicate, slice_set};
ghost use Rattle.cas_model.specs.View.{era_in};

use cas_quorum::Era;

/// How many proposers a world may have: the operator's own, 0, and those of clients, 1 to 16.
const PROPOSERS: usize = 17;

/// The era in which each proposer works, at the place of its number.
#[derive(Clone, Copy)]
pub struct Eras(pub [Era; PROPOSERS]);

impl Eras {
    /// All proposers work in this era.
    pub fn all_in(era: Era) -> Eras
        ensures { result.0 ≡ replicate 17 era }
    {
        Eras([era; PROPOSERS])
    }

    /// The era in which the proposer works, whose number is 0 to 16.
    pub fn of(&self, proposer: u8) -> &Era
        requires { proposer ≤ 16 }
        ensures { result.now ≡ era_in self.now.0 proposer }
    {
        &self.0[usize::from(proposer)]
    }

    /// The proposer, whose number is 0 to 16, works in this era.
    pub fn put(&mut self, proposer: u8, era: Era)
        requires { proposer ≤ 16 }
        ensures { self.new.0 ≡ slice_set self.old.0 proposer era }
    {
        self.0[usize::from(proposer)] = era;
    }
}
