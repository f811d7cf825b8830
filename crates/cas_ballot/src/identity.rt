ghost use Rattle.std.specs.Prelude.{◌≡◌, ℕ, ◌≤◌, ◌↔◌, IsSome, IfSome};

use std::marker::Model;

/// The identity of an acceptor: a number from 0 to 63, seen as that number.
#[derive(Clone, Copy, Debug, PartialEq, Eq, PartialOrd, Ord, Hash)]
pub struct AcceptorId {
    number: u8,
}

impl Model for AcceptorId {
    ghost Value = { ℕ };

    ghost view = { λ id. id.number };

    ghost invariant = { λ id. id.number ≤ 63 };

    ghost inverse = { λ n. record { number = n } };
}

impl AcceptorId {
    /// The acceptor of that number. `None` exactly where the number is above 63.
    pub fn new(n: u8) -> Option<AcceptorId>
        ensures within { IsSome result ↔ (n ≤ 63) }
        ensures value { IfSome result (λ id. id ≡ n) }
    {
        if n <= 63 {
            Some(AcceptorId { number: n })
        } else {
            None
        }
    }

    /// The number, from 0 to 63.
    pub fn number(&self) -> u8
        ensures value { result ≡ self.now }
        ensures within { result ≤ 63 }
    {
        self.number
    }
}

/// The identity of a proposer: a number from 0, the operator's own, to 16, seen as that number.
#[derive(Clone, Copy, Debug, PartialEq, Eq, PartialOrd, Ord, Hash)]
pub struct ProposerId {
    number: u8,
}

impl Model for ProposerId {
    ghost Value = { ℕ };

    ghost view = { λ id. id.number };

    ghost invariant = { λ id. id.number ≤ 16 };

    ghost inverse = { λ n. record { number = n } };
}

impl ProposerId {
    /// The proposer of that number. `None` exactly where the number is above 16.
    pub fn new(n: u8) -> Option<ProposerId>
        ensures within { IsSome result ↔ (n ≤ 16) }
        ensures value { IfSome result (λ id. id ≡ n) }
    {
        if n <= 16 {
            Some(ProposerId { number: n })
        } else {
            None
        }
    }

    /// The number, from 0 to 16.
    pub fn number(&self) -> u8
        ensures value { result ≡ self.now }
        ensures within { result ≤ 16 }
    {
        self.number
    }
}
