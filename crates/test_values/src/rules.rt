use cas_ballot::Ballot;
use cas_change::{Body, State};
use cas_slot::{
    AcceptRule, Accepted, PrepareRule, RemoveRule, Slot, on_accept, on_prepare, on_remove,
};

const fn at(counter: u64, proposer: u8) -> Ballot {
    Ballot { counter, proposer }
}

fn slot_of(promise: Ballot, accepted: Option<Ballot>) -> Slot {
    let accepted = match accepted {
        Some(ballot) => Some(Accepted {
            ballot,
            era: 0,
            state: State::Empty,
        }),
        None => None,
    };
    Slot { promise, accepted }
}

#[test]
fn follow_the_acceptors_table(rt: HostRuntime) {
    assert_eq!(rt; on_prepare(None, at(1, 1)), PrepareRule::Promise);
    assert_eq!(rt; on_accept(None, at(1, 1)), AcceptRule::Take);
    // The promise, the accepted ballot, the request's ballot, and what becomes of a prepare and of an accept.
    let rows = [
        (
            at(2, 1),
            None,
            at(1, 2),
            PrepareRule::Met(at(2, 1)),
            AcceptRule::Met(at(2, 1)),
        ),
        (
            at(2, 1),
            None,
            at(2, 1),
            PrepareRule::Again,
            AcceptRule::Take,
        ),
        (
            at(2, 1),
            None,
            at(2, 2),
            PrepareRule::Promise,
            AcceptRule::Take,
        ),
        (
            at(0, 0),
            Some(at(2, 1)),
            at(2, 1),
            PrepareRule::Again,
            AcceptRule::Repeat,
        ),
        (
            at(3, 1),
            Some(at(2, 1)),
            at(2, 1),
            PrepareRule::Met(at(3, 1)),
            AcceptRule::Repeat,
        ),
        (
            at(3, 1),
            Some(at(2, 1)),
            at(2, 2),
            PrepareRule::Met(at(3, 1)),
            AcceptRule::Met(at(3, 1)),
        ),
        (
            at(0, 0),
            Some(at(2, 2)),
            at(2, 1),
            PrepareRule::Met(at(2, 2)),
            AcceptRule::Met(at(2, 2)),
        ),
        (
            at(0, 0),
            Some(at(2, 2)),
            at(3, 0),
            PrepareRule::Promise,
            AcceptRule::Take,
        ),
    ];
    for (promise, accepted, ballot, prepared, taken) in rows {
        let slot = slot_of(promise, accepted);
        let found = (
            on_prepare(Some(&slot), ballot),
            on_accept(Some(&slot), ballot),
        );
        assert_eq!(rt; found, (prepared, taken), "{ballot} at {slot:?}");
    }
}

#[test]
fn remove_a_tombstone_alone(rt: HostRuntime) {
    assert_eq!(rt; on_remove(None, at(2, 0)), RemoveRule::Absent);
    // The promise, the accepted ballot, and what becomes of a removal at 2.0.
    let rows = [
        (at(0, 0), Some(at(2, 0)), RemoveRule::Remove),
        (at(2, 0), Some(at(2, 0)), RemoveRule::Remove),
        (at(2, 1), Some(at(2, 0)), RemoveRule::Keep),
        (at(0, 0), Some(at(1, 9)), RemoveRule::Keep),
        (at(0, 0), Some(at(2, 1)), RemoveRule::Keep),
        (at(2, 0), None, RemoveRule::Keep),
    ];
    for (promise, accepted, want) in rows {
        let slot = slot_of(promise, accepted);
        assert_eq!(rt; on_remove(Some(&slot), at(2, 0)), want, "{slot:?}");
    }
    let mut held = slot_of(at(0, 0), None);
    held.accepted = Some(Accepted {
        ballot: at(2, 0),
        era: 0,
        state: State::Held {
            version: 0,
            body: Body::Number(5),
        },
    });
    assert_eq!(rt; on_remove(Some(&held), at(2, 0)), RemoveRule::Keep);
}
