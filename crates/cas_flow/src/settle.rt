//! What becomes of the frames of one proposer.
ghost use Rattle.std.specs.Prelude.{◌≡◌, ◌≢◌, []};
ghost use Rattle.cas_flow.specs.Flow.{queue_after, late_after, all_joined, emptied};

use crate::fall::{Fall, fall_of};
use crate::frame::Frame;
use crate::pool::Pool;
use crate::queue::Queue;
use cas_fate::Verdict;

/// Carries out what the verdict means for the first frame. Gives it back where it is not needed any more.
pub(crate) fn settle(queue: &mut Queue, late: &mut Pool, verdict: Verdict) -> Option<Frame>
    requires { queue.old.messages ≢ [] }
    ensures queue { queue.new ≡ queue_after queue.old verdict }
    ensures late { late.new ≡ late_after late.old queue.old verdict }
{
    match fall_of(queue.is_again(), verdict) {
        Fall::Handle => match (queue.is_again(), verdict) {
            (false, Verdict::Twice) => {
                queue.handle_again();
                None
            }
            _ => queue.pop(),
        },
        Fall::Gone => match (queue.pop(), verdict) {
            (Some(frame), Verdict::Late) => {
                late.push(frame);
                None
            }
            (first, _) => first,
        },
        Fall::Held => None,
    }
}

/// All frames join the late ones, in their order.
pub(crate) fn abandon(queue: &mut Queue, late: &mut Pool)
    ensures queue { queue.new ≡ emptied queue.old }
    ensures late { late.new ≡ all_joined late.old queue.old.messages }
{
    while let Some(frame) = queue.pop() {
        late.push(frame);
    }
}
