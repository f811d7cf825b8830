ghost use Rattle.std.specs.Prelude.{Some};
ghost use Rattle.cas_quorum.specs.Fault.{plan_fault_text};

use std::error::Error;
use std::fmt;

/// Why a change of membership is refused. Each is printed as in the list below.
#[derive(Clone, Copy, Debug, PartialEq, Eq)]
pub enum PlanFault {
    /// `already in`: the acceptor that joins is a member.
    AlreadyIn,
    /// `not in`: the acceptor that leaves is no member.
    NotIn,
    /// `id used`: the acceptor that joins was a member before. An identity is used once.
    IdUsed,
    /// `too many`: there are nine members.
    TooMany,
    /// `last`: the acceptor that leaves is the only member.
    Last,
    /// `bad size`: a size is not from 1 to the number of members, or the two sizes together are not above it.
    BadSize,
    /// `not majority`: an acceptor joins or leaves while a size is not the majority of the members.
    NotMajority,
}

impl fmt::Display for PlanFault {
    ghost output = { λ fault. Some (plan_fault_text fault) };

    fn fmt<W: fmt::Write>(&self, f: &mut fmt::Formatter<W>) -> fmt::Result {
        match self {
            PlanFault::AlreadyIn => write!(f, "already in"),
            PlanFault::NotIn => write!(f, "not in"),
            PlanFault::IdUsed => write!(f, "id used"),
            PlanFault::TooMany => write!(f, "too many"),
            PlanFault::Last => write!(f, "last"),
            PlanFault::BadSize => write!(f, "bad size"),
            PlanFault::NotMajority => write!(f, "not majority"),
        }
    }
}

impl Error for PlanFault {}
