//! What becomes of the frames under way: by the rules that were set, or by what a fate draws.

ghost use Rattle.std.specs.Prelude.{◌≡◌, ◌≢◌, ◌<◌, ℕ, ◌∷◌, [], List, nat_eq, true, false};
ghost use Rattle.cas_fate.specs.Legs.{row_of};
ghost use Rattle.cas_fate.specs.Links.{verdict_at};
ghost use Rattle.cas_fate.specs.Seeded.{generator_of_seed, random_of, drawn_verdict};
ghost use Rattle.cas_fate.specs.declared.fate.Leg.{Leg as ALeg};
ghost use Rattle.casreg_script.specs.Frames.Conditions.{Rule, NetworkView, Ruled, Drawn, DecidesVerdict, Names, is_to_repeat, verdict_of};
ghost use Rattle.casreg_script.specs.Frames.Network.{TableAgrees, IsNetwork, Through, ruled};

use cas_ballot::AcceptorId;
use cas_fate::{Fate, Leg, Links, Seeded, Verdict};

/// How many identities of acceptors there are.
const ACCEPTORS: u8 = 64;

/// All legs.
const LEGS: [Leg; 7] = [
    Leg::Prepare,
    Leg::Accept,
    Leg::Ages,
    Leg::Remove,
    Leg::List,
    Leg::Probe,
    Leg::Reply,
];

/// What becomes of the frames under way. No frame is ever held back.
#[derive(Debug, Drop)]
pub enum Network {
    /// What the last rule says that names the leg and the acceptor of a frame. Without such a rule the frame is delivered. No late frame
    /// strays in by itself.
    Ruled(Links),
    /// What this fate draws, by which late frames stray in too.
    Drawn(Seeded),
}

impl Network {
    /// A network without rules, in which each frame is delivered.
    pub fn ruled() -> Network
        ensures { IsNetwork result (Ruled []) }
    {
        Network::Ruled(Links::new())
    }

    /// The network of the fate of this seed.
    pub fn seeded(seed: u64) -> Network
        ensures { IsNetwork result (Drawn (generator_of_seed seed)) }
    {
        Network::Drawn(Seeded::new(seed))
    }

    /// From now on this becomes of the frames of this leg to or from this acceptor: of any leg, and of any acceptor, where it is `None`.
    pub fn set(&mut self, leg: Option<Leg>, who: Option<AcceptorId>, verdict: Verdict)
        requires verdict { verdict ≢ Verdict.Hold }
        requires ruled { (rules : List Rule) × IsNetwork self.old (Ruled rules) }
        ensures { (rules : List Rule) → IsNetwork self.old (Ruled rules) → IsNetwork self.new
            (Ruled (record { leg = leg; who = who; verdict = verdict } ∷ rules)) }
    {
        match self {
            Network::Ruled(links) => set_rule(links, leg, who, verdict),
            Network::Drawn(_) => unreachable!(),
        }
    }

    /// What becomes of a frame of this leg, at whose other end this acceptor is. Where the frame has its second turn nothing is drawn.
    pub fn verdict(&mut self, again: bool, leg: Leg, peer: AcceptorId) -> Verdict
        requires network { (by : NetworkView) × IsNetwork self.old by }
        ensures decides { Through self.old self.new
            (λ by next. DecidesVerdict (leg, peer) by again result next) }
        ensures network { (by : NetworkView)
            → IsNetwork self.old by → (next : NetworkView) × IsNetwork self.new next }
        ensures not_held { result ≢ Verdict.Hold }
    {
        match self {
            Network::Ruled(links) => table_verdict(links, leg, peer),
            Network::Drawn(fate) => fate_verdict(fate, again, leg, peer),
        }
    }

    /// Which of so many late frames is to stray in, if one is.
    pub fn stray(&mut self, late: usize) -> Option<usize>
        ensures names { Through self.old self.new (λ by next. Names late by result next) }
        ensures network { (by : NetworkView)
            → IsNetwork self.old by → (next : NetworkView) × IsNetwork self.new next }
    {
        match self {
            Network::Ruled(_) => None,
            Network::Drawn(fate) => fate.stray(late),
        }
    }
}

/// From now on this becomes of the frames of this leg to or from this acceptor: of any leg, and of any acceptor, where it is `None`.
fn set_rule(links: &mut Links, leg: Option<Leg>, who: Option<AcceptorId>, verdict: Verdict)
    requires { verdict ≢ Verdict.Hold }
    ensures { (rules : List Rule) → TableAgrees links.old rules
        → TableAgrees links.new (record { leg = leg; who = who; verdict = verdict } ∷ rules) }
{
    match (leg, who) {
        (Some(leg), Some(peer)) => links.set(leg, peer, verdict),
        (Some(leg), None) => set_peers(links, leg, verdict),
        (None, Some(peer)) => set_legs(links, peer, verdict),
        (None, None) => set_all(links, verdict),
    }
}

/// Sets the verdict on a leg for all acceptors.
fn set_peers(links: &mut Links, leg: Leg, verdict: Verdict)
    ensures { (l : ALeg) (peer : ℕ) → peer < 64 → verdict_at links.new l peer
        ≡ ruled (nat_eq (row_of leg) (row_of l)) verdict (verdict_at links.old l peer) }
{
    for number in 0..ACCEPTORS {
        let peer = AcceptorId::new(number).unwrap();
        links.set(leg, peer, verdict);
    }
}

/// Sets the verdict on all legs for an acceptor.
fn set_legs(links: &mut Links, peer: AcceptorId, verdict: Verdict)
    ensures { (l : ALeg) (p : ℕ)
        → verdict_at links.new l p ≡ ruled (nat_eq peer p) verdict (verdict_at links.old l p) }
{
    for leg in LEGS {
        links.set(leg, peer, verdict);
    }
}

/// Sets the verdict on all legs for all acceptors.
fn set_all(links: &mut Links, verdict: Verdict)
    ensures { (l : ALeg) (peer : ℕ) → peer < 64 → verdict_at links.new l peer ≡ verdict }
{
    for leg in LEGS {
        set_peers(links, leg, verdict);
    }
}

/// What a table says of a frame of this leg, at whose other end this acceptor is.
fn table_verdict(links: &mut Links, leg: Leg, peer: AcceptorId) -> Verdict
    ensures verdict { (rules : List Rule)
        → TableAgrees links.old rules → result ≡ verdict_of rules leg peer }
    ensures same { (rules : List Rule) → TableAgrees links.old rules → TableAgrees links.new rules }
    ensures not_held { (rules : List Rule) → TableAgrees links.old rules → result ≢ Verdict.Hold }
{
    links.verdict(leg, peer)
}

/// What a fate says of a frame. Where the frame has its second turn nothing is drawn.
fn fate_verdict(fate: &mut Seeded, again: bool, leg: Leg, peer: AcceptorId) -> Verdict
    ensures draws { again ≡ false
        → (result, random_of fate.new) ≡ drawn_verdict (random_of fate.old) }
    ensures repeats { again ≡ true → (result ≡ Verdict.Twice) × (fate.new ≡ fate.old) }
{
    if again {
        return Verdict::Twice;
    }
    fate.verdict(leg, peer)
}

/// Whether a frame has its second turn next, on whose turn this became of it: its first one, or its second.
pub(crate) fn is_to_repeat(again: bool, verdict: Verdict) -> bool
    ensures { result ≡ is_to_repeat again verdict }
{
    !again && matches!(verdict, Verdict::Twice)
}
