use cas_quorum::PlanFault;
use std::test::Fail;

#[test]
fn are_printed_in_words(rt: HostRuntime) -> Result<(), Fail> {
    for (fault, text) in [
        (PlanFault::AlreadyIn, "already in"),
        (PlanFault::NotIn, "not in"),
        (PlanFault::IdUsed, "id used"),
        (PlanFault::TooMany, "too many"),
        (PlanFault::Last, "last"),
        (PlanFault::BadSize, "bad size"),
        (PlanFault::NotMajority, "not majority"),
    ] {
        assert_eq!(rt; fault.to_string(rt.alloc())?.as_str(), text);
    }
    Ok(())
}
