use cas_slot::Ages;

#[test]
fn are_raised_for_each_proposer(rt: HostRuntime) {
    let mut ages = Ages::ZERO;
    let mut least = Ages::ZERO;
    ages.0[1] = 4;
    ages.0[16] = 1;
    least.0[1] = 3;
    least.0[16] = u64::MAX;
    ages.raise(&least);
    for (proposer, want) in [(0, 0), (1, 4), (2, 0), (16, u64::MAX)] {
        assert_eq!(rt; ages.least(proposer), want, "proposer {proposer}");
    }
}
