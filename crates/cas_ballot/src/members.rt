ghost use Rattle.std.specs.Prelude.{◌≡◌, ◌≤◌, ℕ, suc, true, false, [], length, nat_eq};
ghost use Rattle.std.specs.Cmp.Rules.{comparing};
ghost use Rattle.std.proofs.Common.{rules};
ghost use lib.Pointwise.{pointwise};
ghost use Rattle.cas_ballot.specs.Members.{IsMemberSet, has_member, with_member, without_member, union_of, intersection_of};

use crate::identity::AcceptorId;
use std::marker::Model;

/// A set of acceptors, seen as the list of their numbers in rising order. It is kept as one bit for each identity.
#[derive(Clone, Copy, Debug)]
pub struct Members {
    bits: u64,
}

impl Model for Members {
    ghost use Rattle.std.specs.Prelude.{List, ℕ, ◌<◌, ◌^◌};
    ghost use Rattle.cas_ballot.specs.Members.{members_of_bits, bits_of_members};
    ghost use Rattle.cas_ballot.specs.MemberBits.{bits_of_members_of_bits};

    ghost Value = { List ℕ };

    ghost view = { λ m. members_of_bits m.bits };

    ghost invariant = { λ m. m.bits < 2 ^ 64 };

    ghost inverse = { λ ids. record { bits = bits_of_members ids } };

    ghost inverse_ok = { λ m h. λ i. record { bits = bits_of_members_of_bits m.bits h i } };
}

impl PartialEq for Members {
    ghost eq = { pointwise nat_eq };

    ghost laws = { Prim.search (comparing, rules) };

    fn eq(&self, other: &Members) -> bool {
        self.bits == other.bits
    }
}

impl Eq for Members {
    ghost laws = { Prim.search (comparing, rules) };
}

impl Members {
    /// No acceptor.
    pub const EMPTY: Members = Members { bits: 0 };

    /// The set with no acceptor, as [`Members::EMPTY`].
    pub fn new() -> Members
        ensures { result ≡ [] }
    {
        Members::EMPTY
    }

    /// Adds the acceptor. A set that has it stays as it is.
    pub fn insert(&mut self, id: AcceptorId)
        ensures { self.new ≡ with_member self.old id }
    {
        self.bits |= 1 << id.number();
    }

    /// Takes the acceptor out. A set that lacks it stays as it is.
    pub fn remove(&mut self, id: AcceptorId)
        ensures { self.new ≡ without_member self.old id }
    {
        self.bits &= !(1 << id.number());
    }

    /// Whether the acceptor is in the set.
    pub fn has(&self, id: AcceptorId) -> bool
        ensures { result ≡ has_member self.now id }
    {
        self.bits & (1 << id.number()) != 0
    }

    /// One more than the greatest of them; 0 where there is none.
    pub fn end(&self) -> u8
        ensures within { result ≤ 64 }
        ensures behind { (n : ℕ) → result ≤ n → has_member self.now n ≡ false }
        ensures last { (n : ℕ) → suc n ≡ result → has_member self.now n ≡ true }
    {
        (64 - self.bits.leading_zeros()) as u8
    }

    /// How many acceptors the set has, at most 64.
    pub fn count(&self) -> u32
        ensures value { result ≡ length self.now }
        ensures within { result ≤ 64 }
        ensures set { IsMemberSet self.now }
    {
        self.bits.count_ones()
    }

    /// The acceptors of either set.
    pub fn union(&self, other: &Members) -> Members
        ensures { result ≡ union_of self.now other.now }
    {
        Members {
            bits: self.bits | other.bits,
        }
    }

    /// The acceptors of both sets.
    pub fn intersection(&self, other: &Members) -> Members
        ensures { result ≡ intersection_of self.now other.now }
    {
        Members {
            bits: self.bits & other.bits,
        }
    }
}
