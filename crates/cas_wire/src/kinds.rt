//! The bytes that name the kinds of requests and of replies, and which replies a request may get.

ghost use Rattle.std.specs.Prelude.{◌≡◌};
ghost use Rattle.cas_wire.specs.Kinds.{named, phases, phase_byte, kinds, kind_byte, kind_of, may_get, flags, flag_byte};

use cas_slot::{Phase, Tell};

/// The kind of a reply.
#[derive(Clone, Copy, Debug, PartialEq, Eq)]
pub(crate) enum TellKind {
    Promised,
    Accepted,
    Met,
    Aged,
    Full,
    AgesSet,
    Removed,
    Kept,
    Listed,
    Probed,
}

/// The kind of request that a byte names.
pub(crate) fn phase_named(byte: u8) -> Option<Phase>
    ensures { result ≡ named phases byte }
{
    match byte {
        0x01 => Some(Phase::Prepare),
        0x02 => Some(Phase::Accept),
        0x03 => Some(Phase::Ages),
        0x04 => Some(Phase::Remove),
        0x05 => Some(Phase::List),
        0x06 => Some(Phase::Probe),
        _ => None,
    }
}

pub(crate) fn phase_byte(phase: Phase) -> u8
    ensures { result ≡ phase_byte phase }
{
    match phase {
        Phase::Prepare => 0x01,
        Phase::Accept => 0x02,
        Phase::Ages => 0x03,
        Phase::Remove => 0x04,
        Phase::List => 0x05,
        Phase::Probe => 0x06,
    }
}

/// The kind of reply that a byte names.
pub(crate) fn kind_named(byte: u8) -> Option<TellKind>
    ensures { result ≡ named kinds byte }
{
    match byte {
        0x81 => Some(TellKind::Promised),
        0x82 => Some(TellKind::Accepted),
        0x83 => Some(TellKind::Met),
        0x84 => Some(TellKind::Aged),
        0x85 => Some(TellKind::Full),
        0x86 => Some(TellKind::AgesSet),
        0x87 => Some(TellKind::Removed),
        0x88 => Some(TellKind::Kept),
        0x89 => Some(TellKind::Listed),
        0x8A => Some(TellKind::Probed),
        _ => None,
    }
}

pub(crate) fn kind_byte(kind: TellKind) -> u8
    ensures { result ≡ kind_byte kind }
{
    match kind {
        TellKind::Promised => 0x81,
        TellKind::Accepted => 0x82,
        TellKind::Met => 0x83,
        TellKind::Aged => 0x84,
        TellKind::Full => 0x85,
        TellKind::AgesSet => 0x86,
        TellKind::Removed => 0x87,
        TellKind::Kept => 0x88,
        TellKind::Listed => 0x89,
        TellKind::Probed => 0x8A,
    }
}

pub(crate) fn kind_of(tell: &Tell) -> TellKind
    ensures { result ≡ kind_of tell.now }
{
    match tell {
        Tell::Promised { .. } => TellKind::Promised,
        Tell::Accepted => TellKind::Accepted,
        Tell::Met(_) => TellKind::Met,
        Tell::Aged(_) => TellKind::Aged,
        Tell::Full => TellKind::Full,
        Tell::AgesSet => TellKind::AgesSet,
        Tell::Removed => TellKind::Removed,
        Tell::Kept => TellKind::Kept,
        Tell::Listed { .. } => TellKind::Listed,
        Tell::Probed { .. } => TellKind::Probed,
    }
}

/// Whether a request of this kind may get a reply of that kind.
pub(crate) fn may_get(phase: Phase, kind: TellKind) -> bool
    ensures { result ≡ may_get phase kind }
{
    match kind {
        TellKind::Promised => phase == Phase::Prepare,
        TellKind::Accepted => phase == Phase::Accept,
        TellKind::Met | TellKind::Full => matches!(phase, Phase::Prepare | Phase::Accept),
        TellKind::Aged => true,
        TellKind::AgesSet => phase == Phase::Ages,
        TellKind::Removed | TellKind::Kept => phase == Phase::Remove,
        TellKind::Listed => phase == Phase::List,
        TellKind::Probed => phase == Phase::Probe,
    }
}

/// The yes or no that a byte names.
pub(crate) fn flag_named(byte: u8) -> Option<bool>
    ensures { result ≡ named flags byte }
{
    match byte {
        0 => Some(false),
        1 => Some(true),
        _ => None,
    }
}
