ghost use Rattle.std.specs.Prelude.{◌≡◌, ◌<◌, ◌↔◌, length, IsTrue};
ghost use Rattle.cas_ballot.specs.Members.{IsMemberSet, union_of};
ghost use Rattle.cas_quorum.specs.Quorum.{has_quorum, SizesMeet};
ghost use Rattle.cas_quorum.specs.Era.{majority_era, holds_prep, holds_acc, IsSized, Meet};

use cas_ballot::Members;

/// The acceptors of a time, and how many of them make a quorum (Rystsov 2018, section 2.3).
///
/// A prepare quorum is any `need_prep` members of `prep`, and an accept quorum any `need_acc` members of `acc`. The sizes
/// of an era in use are from 1 to the number of members of their sets.
#[derive(Clone, Copy, Debug, PartialEq, Eq)]
pub struct Era {
    /// Eras are numbered from 0, in the order in which they are entered.
    pub number: u32,
    /// The acceptors that are asked to promise a ballot.
    pub prep: Members,
    /// How many of `prep` have to promise it.
    pub need_prep: u32,
    /// The acceptors that are asked to accept a state.
    pub acc: Members,
    /// How many of `acc` have to accept it.
    pub need_acc: u32,
}

impl Era {
    /// The era of that number in which a majority of these members prepares, and a majority of them accepts. A majority
    /// of n is n / 2 + 1, so where there is no member there is no quorum.
    pub fn majority(number: u32, members: Members) -> Era
        ensures value { result ≡ majority_era number members }
        ensures set { IsMemberSet members }
        ensures meets { Meet result result }
        ensures sized { 0 < length members → IsSized result }
    {
        let need = members.count() / 2 + 1;
        Era {
            number,
            prep: members,
            need_prep: need,
            acc: members,
            need_acc: need,
        }
    }

    /// Whether a prepare quorum is among these acceptors.
    pub fn holds_prep(&self, of: &Members) -> bool
        ensures { result ≡ holds_prep self.now of.now }
    {
        holds(&self.prep, self.need_prep, of)
    }

    /// Whether an accept quorum is among these acceptors.
    pub fn holds_acc(&self, of: &Members) -> bool
        ensures { result ≡ holds_acc self.now of.now }
    {
        holds(&self.acc, self.need_acc, of)
    }

    /// The acceptors that prepare, accept, or both.
    pub fn everyone(&self) -> Members
        ensures { result ≡ union_of self.now.prep self.now.acc }
    {
        self.prep.union(&self.acc)
    }
}

/// Whether each prepare quorum of either era must share an acceptor with each accept quorum of the other, by their sizes:
/// the two sizes are together above the number of acceptors in the two sets.
pub fn meet(a: &Era, b: &Era) -> bool
    ensures { IsTrue result ↔ Meet a.now b.now }
{
    sizes_meet(&a.prep, a.need_prep, &b.acc, b.need_acc)
        && sizes_meet(&b.prep, b.need_prep, &a.acc, a.need_acc)
}

/// Whether at least so many of the set are among these acceptors.
fn holds(set: &Members, need: u32, of: &Members) -> bool
    ensures { result ≡ has_quorum need set.now of.now }
{
    need <= set.intersection(of).count()
}

/// Whether so many of the one set and so many of the other are together more than both sets have.
fn sizes_meet(prep: &Members, need_prep: u32, acc: &Members, need_acc: u32) -> bool
    ensures { IsTrue result ↔ SizesMeet prep.now need_prep acc.now need_acc }
{
    u64::from(prep.union(acc).count()) < u64::from(need_prep) + u64::from(need_acc)
}
