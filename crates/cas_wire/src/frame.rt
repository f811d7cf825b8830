//! What the frames of requests and of replies share.

ghost use Rattle.std.specs.Prelude.{◌≡◌};
ghost use Rattle.cas_wire.specs.FrameReading.{named_at, is_format, is_acceptor, whole_of};
ghost use Rattle.cas_wire.specs.Kinds.{phases};
ghost use Rattle.cas_wire.specs.Part.{Gives};
ghost use Rattle.cas_wire.specs.Reading.{byte_where};

use crate::kinds;
use crate::reading::{ReadError, wrong};
use cas_ballot::AcceptorId;
use cas_slot::Phase;

/// The format of all frames.
pub(crate) const FORMAT: u8 = 2;

/// No frame has more bytes.
pub const LONGEST_FRAME: usize = 4_608;

pub(crate) fn format_at(bytes: &[u8]) -> Result<(u8, &[u8]), ReadError>
    ensures { Gives (λ x. (x.0, x.1.now)) result (byte_where is_format bytes.now) }
{
    match bytes {
        [] => wrong(0),
        [format, rest @ ..] if *format == FORMAT => Ok((*format, rest)),
        [_, ..] => wrong(bytes.len()),
    }
}

/// The kind of a request.
pub(crate) fn phase_at(bytes: &[u8]) -> Result<(Phase, &[u8]), ReadError>
    ensures { Gives (λ x. (x.0, x.1.now)) result (named_at phases bytes.now) }
{
    match bytes {
        [] => wrong(0),
        [byte, rest @ ..] => match kinds::phase_named(*byte) {
            Some(phase) => Ok((phase, rest)),
            None => wrong(bytes.len()),
        },
    }
}

pub(crate) fn acceptor_at(bytes: &[u8]) -> Result<(AcceptorId, &[u8]), ReadError>
    ensures { Gives (λ x. (x.0, x.1.now)) result (byte_where is_acceptor bytes.now) }
{
    match bytes {
        [] => wrong(0),
        [number, rest @ ..] => match AcceptorId::new(*number) {
            Some(acceptor) => Ok((acceptor, rest)),
            None => wrong(bytes.len()),
        },
    }
}

/// The value, where nothing is left over.
pub(crate) fn whole<T: Drop>(value: T, rest: &[u8]) -> Option<T>
    ensures { result ≡ whole_of value rest.now }
{
    match rest {
        [] => Some(value),
        [_, ..] => None,
    }
}
