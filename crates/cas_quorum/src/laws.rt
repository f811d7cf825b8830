//! What is true of all eras. Each law is the contract of a function that does nothing.

ghost use Rattle.cas_quorum.specs.Laws.{QuorumsShare};

/// Quorums share: where two eras meet, each set that holds a prepare quorum of the one and each set that holds an accept
/// quorum of the other have an acceptor in common. So it is within one era that meets itself.
pub fn quorums_share()
    ensures { QuorumsShare }
{}
