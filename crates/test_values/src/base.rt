use cas_base::raised;

#[test]
fn rises_by_one_up_to_the_end(rt: HostRuntime) {
    for (faults, want) in [
        (0, 1),
        (41, 42),
        (u64::MAX - 1, u64::MAX),
        (u64::MAX, u64::MAX),
    ] {
        assert_eq!(rt; raised(faults), want, "after {faults}");
    }
}
