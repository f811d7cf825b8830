//! What members agree on of a key, by what they told that was kept for it: the decision of a read that writes nothing.

ghost use Rattle.std.specs.Prelude.{◌≡◌, true, false, Bool, ◌||◌, if◌then◌else◌, option_copied, option_map, MatchOption};
ghost use Rattle.std.specs.List.{position};
ghost use Rattle.cas_ballot.specs.declared.ballot.Ballot.{Ballot};
ghost use Rattle.cas_ballot.specs.Members.{with_member};
ghost use Rattle.cas_quorum.specs.Era.{Meet};
ghost use Rattle.cas_record.specs.declared.agreement.Agreement.{Agreement};
ghost use Rattle.cas_record.specs.Agreement.{accepted_told, ballot_kept, ballot_told, is_ballot_told, is_of_era, tells, tells_in, acceptors_where, tellers, is_told, is_agreed, tells_agreed, place_of, NoneAgreed, shortfall, IsUndecided, IsAgreementOf, TellOnce, HaveOneEra, IsSpan, has_other_era, IsOtherEra};

use crate::history::is_ballot;
use crate::operator::Probe;
use cas_ballot::{AcceptorId, Ballot, Members};
use cas_quorum::Era;
use cas_slot::{Accepted, Tell};

/// What members agree on of a key, or why they do not.
///
/// The ballot of a member is that of the state that it accepted, and zero if it accepted none. A member that told nothing of the key
/// has no ballot.
#[derive(Clone, Copy, Debug, PartialEq, Eq)]
pub enum Agreement {
    /// Members that hold a prepare quorum and an accept quorum of the era told this ballot, and their state is of that era.
    /// The first of their probes stands at `at`; there is no such place at ballot zero.
    Value { ballot: Ballot, at: Option<usize> },
    /// Those that told hold no prepare quorum: `got` of its members told, and it needs `need`. If they hold one, these are the
    /// numbers of an accept quorum, which they do not hold.
    Short { got: u32, need: u32 },
    /// Enough told, and their ballots differ. These are the least and the greatest.
    NotAgreed { low: Ballot, high: Ballot },
    /// Enough told, and all ballots are this one, whose state was accepted in this other era.
    OldEra { ballot: Ballot, era: u32 },
}

/// What members agree on of a key, by the probes that were found of it. It takes no memory.
///
/// If more than one answer of `Agreement` fits, the first is given.
pub fn agree(era: &Era, found: &[Probe]) -> Agreement
    requires { Meet era.now era.now }
    ensures is { IsAgreementOf era.now found.now result }
    // Nothing else is, if each member told one thing and the states of one ballot are of one era.
    ensures only { TellOnce found.now → HaveOneEra found.now
        → (other : Agreement) → IsAgreementOf era.now found.now other → other ≡ result }
{
    decision(era, found)
}

/// What members agree on: a ballot, or nothing.
fn decision(era: &Era, found: &[Probe]) -> Agreement
    requires { Meet era.now era.now }
    ensures { IsAgreementOf era.now found.now result }
{
    match agreed_ballot(era, found) {
        Some(ballot) => Agreement::Value {
            ballot,
            at: place_of(era.number, ballot, found),
        },
        None => not_agreed(era, found),
    }
}

/// Why members agree on nothing: too few told, or they told what is not one ballot of the era.
fn not_agreed(era: &Era, found: &[Probe]) -> Agreement
    requires meets { Meet era.now era.now }
    requires none { NoneAgreed era.now found.now }
    ensures { IsAgreementOf era.now found.now result }
{
    match shortfall(era, &tellers(found)) {
        Some((got, need)) => Agreement::Short { got, need },
        None => undecided(era, found),
    }
}

/// Why members agree on nothing that told enough.
fn undecided(era: &Era, found: &[Probe]) -> Agreement
    requires meets { Meet era.now era.now }
    requires undecided { IsUndecided era.now found.now }
    ensures { IsAgreementOf era.now found.now result }
{
    let Some((low, high)) = span(found) else {
        unreachable!()
    };
    if !is_ballot(low, high) {
        return Agreement::NotAgreed { low, high };
    }
    let Some(number) = other_era(era.number, found) else {
        unreachable!()
    };
    Agreement::OldEra {
        ballot: low,
        era: number,
    }
}

/// The state that a member accepted, if any.
fn accepted_told(told: &Option<Tell>) -> Option<&Accepted>
    ensures { option_copied result ≡ accepted_told told.now }
{
    match told {
        Some(Tell::Probed { accepted, .. }) => accepted.as_ref(),
        _ => None,
    }
}

/// The ballot of that state, and zero if there is none.
fn ballot_kept(accepted: &Option<Accepted>) -> Ballot
    ensures { result ≡ ballot_kept accepted.now }
{
    match accepted {
        Some(accepted) => accepted.ballot,
        None => Ballot::ZERO,
    }
}

/// The ballot that a member told; none if it told nothing of the key.
fn ballot_told(told: &Option<Tell>) -> Option<Ballot>
    ensures { result ≡ ballot_told told.now }
{
    match told {
        Some(Tell::Probed { accepted, .. }) => Some(ballot_kept(accepted)),
        _ => None,
    }
}

/// Whether a member told this ballot.
fn is_ballot_told(ballot: Ballot, told: Option<Ballot>) -> bool
    ensures { result ≡ is_ballot_told ballot told }
{
    match told {
        Some(other) => is_ballot(other, ballot),
        None => false,
    }
}

/// Whether what a member accepted is of this era. Nothing is accepted at ballot zero, and nothing is of each era.
fn is_of_era(number: u32, told: &Option<Tell>) -> bool
    ensures { result ≡ is_of_era number (accepted_told told.now) }
{
    match accepted_told(told) {
        Some(accepted) => is_ballot(accepted.ballot, Ballot::ZERO) || accepted.era == number,
        None => true,
    }
}

/// Whether a member told any ballot.
fn tells(probe: &Probe) -> bool
    ensures { result ≡ tells probe.now }
{
    ballot_told(&probe.told).is_some()
}

/// Whether a member told this ballot as one of this era.
fn tells_in(number: u32, ballot: Ballot, probe: &Probe) -> bool
    ensures { result ≡ tells_in number ballot probe.now }
{
    is_ballot_told(ballot, ballot_told(&probe.told)) && is_of_era(number, &probe.told)
}

/// Adds the acceptor if it passes.
fn add_if(members: &mut Members, passes: bool, id: AcceptorId)
    ensures { members.new ≡ (if passes then with_member members.old id else members.old) }
{
    if passes {
        members.insert(id);
    }
}

/// The members that told a ballot.
fn tellers(found: &[Probe]) -> Members
    ensures { result ≡ tellers found.now }
{
    let mut members = Members::new();
    for probe in found {
        let passes = tells(probe);
        add_if(&mut members, passes, probe.acceptor);
    }
    members
}

/// The members that told this ballot as one of this era.
fn tellers_in(number: u32, ballot: Ballot, found: &[Probe]) -> Members
    ensures { result ≡ acceptors_where (tells_in number ballot) found.now }
{
    let mut members = Members::new();
    for probe in found {
        let passes = tells_in(number, ballot, probe);
        add_if(&mut members, passes, probe.acceptor);
    }
    members
}

/// Whether the members that told this ballot, as one of the era, hold a quorum of each phase.
fn is_agreed(era: &Era, found: &[Probe], ballot: Ballot) -> bool
    ensures { result ≡ is_agreed era.now found.now ballot }
{
    let by = tellers_in(era.number, ballot, found);
    era.holds_prep(&by) && era.holds_acc(&by)
}

/// Whether the ballot that a member told is agreed on.
fn tells_agreed(era: &Era, found: &[Probe], told: Option<Ballot>) -> bool
    ensures { result ≡ tells_agreed era.now found.now told }
{
    match told {
        Some(ballot) => is_agreed(era, found, ballot),
        None => false,
    }
}

/// The ballot that is agreed on, if any.
fn agreed_ballot(era: &Era, found: &[Probe]) -> Option<Ballot>
    requires { Meet era.now era.now }
    ensures { MatchOption result
        (NoneAgreed era.now found.now) (λ ballot. is_agreed era.now found.now ballot ≡ true) }
{
    for probe in found {
        let told = ballot_told(&probe.told);
        if tells_agreed(era, found, told) {
            return told;
        }
    }
    None
}

/// Where the first probe stands that tells this ballot as one of this era.
fn first_teller(number: u32, ballot: Ballot, found: &[Probe]) -> Option<usize>
    ensures { result ≡ position (tells_in number ballot) found.now }
{
    found
        .iter()
        .position(|probe| tells_in(number, ballot, probe))
}

/// The same; nowhere at ballot zero.
fn place_of(number: u32, ballot: Ballot, found: &[Probe]) -> Option<usize>
    ensures { result ≡ place_of number ballot found.now }
{
    if is_ballot(ballot, Ballot::ZERO) {
        None
    } else {
        first_teller(number, ballot, found)
    }
}

/// How many of these acceptors a prepare quorum has, and how many it needs, if they hold none; else the same of an accept quorum.
fn shortfall(era: &Era, by: &Members) -> Option<(u32, u32)>
    ensures { result ≡ shortfall era.now by.now }
{
    if !era.holds_prep(by) {
        Some((era.prep.intersection(by).count(), era.need_prep))
    } else if !era.holds_acc(by) {
        Some((era.acc.intersection(by).count(), era.need_acc))
    } else {
        None
    }
}

/// The least ballot and the greatest, with one more that may be there.
fn widened(span: Option<(Ballot, Ballot)>, told: Option<Ballot>) -> Option<(Ballot, Ballot)>
    ensures { (some more : Ballot → Bool)
        → ((ballot : Ballot) → more ballot ≡ (some ballot || is_ballot_told ballot told))
        → IsSpan some span → IsSpan more result }
{
    match (span, told) {
        (Some((low, high)), Some(ballot)) => Some((low.min(ballot), high.max(ballot))),
        (None, Some(ballot)) => Some((ballot, ballot)),
        (span, None) => span,
    }
}

/// The least and the greatest of the ballots that were told, if any was.
fn span(found: &[Probe]) -> Option<(Ballot, Ballot)>
    ensures { IsSpan (is_told found.now) result }
{
    let mut span = None;
    for probe in found {
        span = widened(span, ballot_told(&probe.told));
    }
    span
}

/// The era of the state that a member accepted, if any.
fn era_told(told: &Option<Tell>) -> Option<u32>
    ensures { result ≡ option_map (λ accepted. accepted.era) (accepted_told told.now) }
{
    match accepted_told(told) {
        Some(accepted) => Some(accepted.era),
        None => None,
    }
}

/// The era of the first state that was accepted in another era than this one.
fn other_era(number: u32, found: &[Probe]) -> Option<u32>
    ensures { MatchOption result
        (has_other_era number found.now ≡ false) (λ other. IsOtherEra number found.now other) }
{
    for probe in found {
        if !is_of_era(number, &probe.told) {
            return era_told(&probe.told);
        }
    }
    None
}
