//! What an operator is answered that reads a key.

ghost use Rattle.std.specs.Prelude.{◌≡◌};
ghost use Rattle.cas_record.specs.Reading.{read_of, state_kept, told_at};

use crate::agreement::Agreement;
use crate::answer::Answer;
use crate::operator::Probes;
use cas_ballot::Ballot;
use cas_change::{Key, State};
use cas_slot::Tell;

/// What an operator is answered that reads a key.
#[derive(Debug, PartialEq, Eq, Drop)]
pub enum ReadAnswer {
    /// The members agree on the key: it has this state, which was proposed at this ballot. The ballot is zero where they agree that nothing
    /// was accepted, and the state is empty then.
    Value {
        key: Key,
        state: State,
        ballot: Ballot,
    },
    /// So many members told of those that a prepare quorum needs, or else of those that an accept quorum needs.
    Short {
        got: u32,
        need: u32,
    },
    /// The members told different ballots. These are the least and the greatest.
    NotAgreed {
        low: Ballot,
        high: Ballot,
    },
    /// The members told this one ballot, and its state was accepted in this other era.
    OldEra {
        ballot: Ballot,
        era: u32,
    },
    /// The read was stopped by this.
    Stopped(Answer),
}

impl ReadAnswer {
    /// What is answered of a key by what the members agree on, and by what they told. It takes no memory: the state is taken out of `found`.
    pub fn of(key: Key, agreement: Agreement, found: Probes) -> ReadAnswer
        ensures { result ≡ read_of key agreement found.probes.items }
    {
        match agreement {
            Agreement::Value { ballot, at } => ReadAnswer::Value {
                key,
                state: state_kept(told_at(at, found)),
                ballot,
            },
            Agreement::Short { got, need } => ReadAnswer::Short { got, need },
            Agreement::NotAgreed { low, high } => ReadAnswer::NotAgreed { low, high },
            Agreement::OldEra { ballot, era } => ReadAnswer::OldEra { ballot, era },
        }
    }
}

/// What the member at this place told; nothing where there is no place.
fn told_at(place: Option<usize>, found: Probes) -> Option<Tell>
    ensures { result ≡ told_at place found.probes.items }
{
    let place = place?;
    let mut probes = found.into_list();
    if place < probes.len() {
        probes.swap_remove(place).told
    } else {
        None
    }
}

/// The state that a member told that it accepted, and the empty one where it told none.
fn state_kept(told: Option<Tell>) -> State
    ensures { result ≡ state_kept told }
{
    match told {
        Some(
            Tell::Probed {
                accepted: Some(accepted),
                ..
            },
        ) => accepted.state,
        _ => State::Empty,
    }
}
