//! What a verdict means for a frame.
ghost use Rattle.std.specs.Prelude.{◌≡◌};
ghost use Rattle.cas_flow.specs.Queue.{fall_of};

use cas_fate::Verdict;

/// What a verdict means for the frame in front.
#[derive(Clone, Copy, Debug, PartialEq, Eq)]
pub enum Fall {
    /// It is handled in this turn.
    Handle,
    /// It is lost or late: nobody handles it in this turn.
    Gone,
    /// It stays in front, and nobody handles it in this turn.
    Held,
}

/// What the verdict means for a frame. In its second turn it is handled whatever the verdict.
pub(crate) fn fall_of(again: bool, verdict: Verdict) -> Fall
    ensures { result ≡ fall_of again verdict }
{
    if again {
        return Fall::Handle;
    }
    match verdict {
        Verdict::Deliver | Verdict::Twice => Fall::Handle,
        Verdict::Lose | Verdict::Late => Fall::Gone,
        Verdict::Hold => Fall::Held,
    }
}
