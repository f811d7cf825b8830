//! What a fate is to its users, and what it can answer. No fate lives here.
ghost use Rattle.std.specs.Prelude.{◌≡◌, ◌≤◌, ℕ};
ghost use Rattle.cas_fate.specs.Harms.{HarmsByCount, is_harm};

use cas_ballot::AcceptorId;

/// What a frame is: a request of one of six kinds, or a reply.
#[derive(Clone, Copy, Debug, PartialEq, Eq)]
pub enum Leg {
    /// A request to promise a ballot.
    Prepare,
    /// A request to accept a state.
    Accept,
    /// A request to raise the least ages.
    Ages,
    /// A request to remove a slot.
    Remove,
    /// A request for the next keys.
    List,
    /// A request to tell a slot.
    Probe,
    /// A reply to any of these.
    Reply,
}

/// What becomes of a frame.
#[derive(Clone, Copy, Debug, PartialEq, Eq)]
pub enum Verdict {
    /// It is handled once.
    Deliver,
    /// It is dropped.
    Lose,
    /// It is handled in two turns that follow each other.
    Twice,
    /// It joins the late frames, any of which may be let in at any later time.
    Late,
    /// It stays in front, and the fate is asked again.
    Hold,
}

impl Verdict {
    /// Whether it harms its frame: the frame is lost, late or held back.
    pub fn is_harm(self) -> bool
        ensures { result ≡ is_harm self }
    {
        match self {
            Verdict::Lose | Verdict::Late | Verdict::Hold => true,
            Verdict::Deliver | Verdict::Twice => false,
        }
    }
}

/// Decides what becomes of frames. It may answer anything, but it counts the frames that it harms.
pub trait Fate {
    /// How many frames it has harmed. At the greatest `u64` the count stands still.
    ghost harm_count: { Self → ℕ };

    /// What becomes of a frame of this leg, at whose other end this acceptor is. `Lose`, `Late` and `Hold` come only where the
    /// count of harms rose.
    fn verdict(&mut self, leg: Leg, peer: AcceptorId) -> Verdict
        ensures { HarmsByCount result (harm_count self.old) (harm_count self.new) };

    /// How many frames it has harmed.
    fn harms(&self) -> u64
        ensures { result ≡ harm_count self.now };

    /// The place of a late frame to let in before the next turn, of which there are so many. A place that is not below `late`
    /// counts as `None`. Nothing is harmed by it.
    fn stray(&mut self, late: usize) -> Option<usize>
        ensures { harm_count self.new ≡ harm_count self.old };
}
