use CollectStep::{Ages, End, Floor, Remove, Renew, Round};
use cas_ballot::Members;
use cas_change::Key;
use cas_collect::{Collect, CollectStep};
use cas_quorum::Era;
use std::test::Fail;

#[test]
fn go_in_one_order(rt: HostRuntime) -> Result<(), Fail> {
    for (proposers, order) in [
        (0, [Round, Renew(0), Ages, Floor, Remove, End, End, End]),
        (
            1,
            [Round, Renew(0), Renew(1), Ages, Floor, Remove, End, End],
        ),
        (
            2,
            [
                Round,
                Renew(0),
                Renew(1),
                Renew(2),
                Ages,
                Floor,
                Remove,
                End,
            ],
        ),
    ] {
        let era = Era::majority(3, Members::new());
        let mut collect = Collect::begin(Key::read(rt.alloc(), b"a")?, proposers, &era);
        for step in order {
            let next = collect.next();
            assert_eq!(rt; next, step, "with proposers 0 to {proposers}");
            collect.confirm(next);
        }
        assert!(rt; collect.era() == era);
        assert!(rt; collect.key().bytes() == b"a".as_slice());
        assert!(rt; collect.end().bytes() == b"a".as_slice());
    }
    Ok(())
}
