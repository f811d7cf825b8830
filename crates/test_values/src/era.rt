use cas_ballot::{AcceptorId, Members};
use cas_quorum::{Era, meet};

fn set_of(numbers: &[u8]) -> Members {
    let mut members = Members::new();
    for &number in numbers {
        if let Some(id) = AcceptorId::new(number) {
            members.insert(id);
        }
    }
    members
}

const fn era_of(prep: Members, need_prep: u32, acc: Members, need_acc: u32) -> Era {
    Era {
        number: 1,
        prep,
        need_prep,
        acc,
        need_acc,
    }
}

#[test]
fn have_majorities_above_half(rt: HostRuntime) {
    let members = [9, 3, 0, 1, 2, 63, 5, 7, 8];
    let mut rising = Members::new();
    for (i, need) in [1, 2, 2, 3, 3, 4, 4, 5, 5].iter().enumerate() {
        if let Some(&number) = members.get(i)
            && let Some(id) = AcceptorId::new(number)
        {
            rising.insert(id);
        }
        let era = Era::majority(7, rising);
        assert_eq!(rt; era.number, 7);
        assert_eq!(rt;
            (era.need_prep, era.need_acc),
            (*need, *need),
            "of {i} and one"
        );
        assert!(rt; era.prep == rising && era.acc == rising && era.everyone() == rising);
    }
}

#[test]
fn hold_quorums_of_their_own_members(rt: HostRuntime) {
    let era = era_of(set_of(&[1, 2, 3]), 2, set_of(&[1, 2, 3, 4]), 3);
    assert!(rt; era.everyone() == set_of(&[1, 2, 3, 4]));
    // Some acceptors, and whether a prepare and an accept quorum is among them.
    let rows = [
        (set_of(&[]), false, false),
        (set_of(&[1, 4, 5, 6]), false, false),
        (set_of(&[1, 3]), true, false),
        (set_of(&[1, 2, 3]), true, true),
        (set_of(&[2, 3, 4]), true, true),
        (set_of(&[1, 2, 4, 5]), true, true),
    ];
    for (of, prepare, accept) in rows {
        assert_eq!(rt; era.holds_prep(&of), prepare, "prepare among {of:?}");
        assert_eq!(rt; era.holds_acc(&of), accept, "accept among {of:?}");
    }
}

#[test]
fn meet_where_sizes_exceed_the_union(rt: HostRuntime) {
    let three = set_of(&[1, 2, 3]);
    let four = set_of(&[1, 2, 3, 4]);
    let others = set_of(&[5, 6, 7]);
    let rows = [
        (era_of(three, 2, three, 2), era_of(three, 2, four, 3), true),
        (era_of(three, 2, four, 3), era_of(four, 3, four, 3), true),
        (era_of(three, 2, three, 2), era_of(four, 2, four, 3), false),
        (era_of(three, 2, three, 2), era_of(four, 3, four, 2), false),
        (era_of(three, 1, three, 3), era_of(three, 1, three, 3), true),
        (
            era_of(three, 1, three, 3),
            era_of(three, 3, three, 1),
            false,
        ),
        (
            era_of(three, 3, three, 3),
            era_of(others, 3, others, 3),
            false,
        ),
        (
            era_of(three, u32::MAX, three, u32::MAX),
            era_of(others, u32::MAX, others, u32::MAX),
            true,
        ),
    ];
    for (a, b, expected) in rows {
        assert_eq!(rt; meet(&a, &b), expected, "{a:?} and {b:?}");
        assert_eq!(rt; meet(&b, &a), expected, "{b:?} and {a:?}");
    }
}
