use cas_ballot::Ballot;
use std::test::Fail;

#[test]
fn are_ordered_by_counter_and_then_by_proposer(rt: HostRuntime) {
    let rising = [
        Ballot::ZERO,
        Ballot {
            counter: 0,
            proposer: 2,
        },
        Ballot {
            counter: 1,
            proposer: 1,
        },
        Ballot {
            counter: 1,
            proposer: 2,
        },
        Ballot {
            counter: 2,
            proposer: 0,
        },
    ];
    for (i, a) in rising.iter().enumerate() {
        for (j, b) in rising.iter().enumerate() {
            assert_eq!(rt; a.cmp(b), i.cmp(&j), "{a} and {b}");
        }
    }
}

#[test]
fn are_printed_with_a_point(rt: HostRuntime) -> Result<(), Fail> {
    let ballot = Ballot {
        counter: 281474976710656,
        proposer: 16,
    };
    assert_eq!(rt;
        ballot.to_string(rt.alloc())?.as_str(),
        "281474976710656.16"
    );
    Ok(())
}
