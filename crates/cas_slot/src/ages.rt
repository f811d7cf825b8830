//! The least ages that an acceptor still answers.

ghost use Rattle.std.specs.Prelude.{◌≡◌, ◌≤◌};
ghost use Rattle.cas_slot.specs.Ages.{least_age, raised};

/// How many proposers there are: the operator's own, 0, and those of clients, 1 to 16.
pub const PROPOSERS: usize = 17;

/// For each proposer the least age at which it is still answered. It is 0 at first.
#[derive(Clone, Copy, Debug, PartialEq, Eq)]
pub struct Ages(pub [u64; PROPOSERS]);

impl Ages {
    /// No age is too low.
    pub const ZERO: Ages = Ages([0; PROPOSERS]);

    /// The least age of a proposer, whose number is 0 to 16.
    pub fn least(&self, proposer: u8) -> u64
        requires { proposer ≤ 16 }
        ensures { result ≡ least_age self.now proposer }
    {
        self.0[proposer as usize]
    }

    /// Raises each proposer's least age to the greater of the two.
    pub fn raise(&mut self, least: &Ages)
        ensures { self.new ≡ raised self.old least.now }
    {
        for i in 0..PROPOSERS {
            self.0[i] = self.0[i].max(least.0[i]);
        }
    }
}
