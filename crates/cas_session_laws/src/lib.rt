//! What is true of numbered requests in every legal record. Each law is the contract of a function that does nothing.
//!
//! The laws speak of a key whose calls all keep it or were made for requests of their callers, as those are that `submit` makes.
#![tactic(auto)]

ghost use Rattle.cas_session_laws.specs.Laws.{RequestsAreFound, EachActsOnce, ValuesAreFolds, AnsweredHaveActed, UndisturbedIsDone};

/// The history that stands of the key tells which requests acted, in their order.
pub fn requests_are_found()
    ensures { RequestsAreFound }
{}

/// Each request that a caller numbered acts at most once, whatever was asked again, lost or crashed in between.
pub fn each_request_acts_once()
    ensures { EachActsOnce }
{}

/// The value after a history is that at its start, changed by the acts of the requests that acted, in their order.
pub fn values_are_folds()
    ensures { ValuesAreFolds }
{}

/// A request that was answered done has acted, and its reply is the value that it left; only where the answer is not fresh, it may instead
/// be one that the key's history opened with.
pub fn answered_requests_have_acted()
    ensures { AnsweredHaveActed }
{}

/// A request that is next, and whose value fits, is answered fresh, or finds no memory, where its calls are done on one state at whose
/// version a put is possible.
pub fn undisturbed_requests_are_done()
    ensures { UndisturbedIsDone }
{}
