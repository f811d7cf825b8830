use cas_ballot::{AcceptorId, ProposerId};

// The number of the acceptor and of the proposer that are numbered so, where there are such.
fn numbers(n: u8) -> (Option<u8>, Option<u8>) {
    let acceptor = match AcceptorId::new(n) {
        Some(id) => Some(id.number()),
        None => None,
    };
    match ProposerId::new(n) {
        Some(id) => (acceptor, Some(id.number())),
        None => (acceptor, None),
    }
}

#[test]
fn are_refused_above_the_greatest(rt: HostRuntime) {
    for (n, acceptor, proposer) in [
        (0, Some(0), Some(0)),
        (16, Some(16), Some(16)),
        (17, Some(17), None),
        (63, Some(63), None),
        (64, None, None),
        (255, None, None),
    ] {
        assert_eq!(rt; numbers(n), (acceptor, proposer), "{n}");
    }
}
