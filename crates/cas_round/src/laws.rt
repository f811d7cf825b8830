//! What is true of every phase. Each law is the contract of a function that does nothing.

ghost use Rattle.cas_round.specs.Laws.{OneVerdict, OneRead};

/// The verdict of a phase depends on nothing but which replies arrived: in any two orders, and however often each of them
/// came, there is one verdict by them.
pub fn one_verdict()
    ensures { OneVerdict }
{}

/// What is read depends on nothing but which replies arrived: by the same replies the same ballot is read, or nothing. Where what
/// they tell as accepted at one ballot is one state, as acceptors of this store do, the same state is read too.
pub fn one_read()
    ensures { OneRead }
{}
