ghost use Rattle.std.specs.Prelude.{◌<◌};

use PlanStep::{Enter, Finished, Settle};
use cas_ballot::{AcceptorId, Members};
use cas_members::{Plan, PlanStep};
use cas_quorum::{Era, PlanFault};

/// An identity that was used before and is no member.
const USED: u8 = 1;

/// All steps of a plan.
fn played(mut plan: Plan) -> [PlanStep; 5] {
    let mut steps = [Finished; 5];
    for step in steps.iter_mut() {
        *step = plan.next();
        match plan.next() {
            Settle => plan.settled(),
            Enter(_) => plan.entered(),
            Finished => {}
        }
    }
    steps
}

/// The steps of a plan that enters these eras, from that one on.
fn steps_from(era: u32, half: Option<Era>, whole: Era) -> [PlanStep; 5] {
    match (era, half) {
        (0, Some(half)) => [Enter(half), Settle, Enter(whole), Finished, Finished],
        (_, Some(half)) => [Settle, Enter(half), Settle, Enter(whole), Finished],
        (0, None) => [Enter(whole), Finished, Finished, Finished, Finished],
        (_, None) => [Settle, Enter(whole), Finished, Finished, Finished],
    }
}

/// The majorities of 0 to 10 members.
fn majority(count: u32) -> u32 {
    match count {
        0 | 1 => 1,
        2 | 3 => 2,
        4 | 5 => 3,
        6 | 7 => 4,
        8 | 9 => 5,
        _ => 6,
    }
}

fn era_of(number: u32, prep: Members, acc: Members) -> Era {
    Era {
        number,
        prep,
        need_prep: majority(prep.count()),
        acc,
        need_acc: majority(acc.count()),
    }
}

/// What a join is answered, from an era of that number with n members.
fn join_row(m: u32, n: u8, members: Members, id: AcceptorId) -> Result<[PlanStep; 5], PlanFault>
    requires { m < 100 }
{
    let mut joined = members;
    joined.insert(id);
    if members.has(id) {
        Err(PlanFault::AlreadyIn)
    } else if id.number() == USED {
        Err(PlanFault::IdUsed)
    } else if n == 9 {
        Err(PlanFault::TooMany)
    } else if [1, 3, 5, 7].contains(&n) {
        let half = era_of(m + 1, members, joined);
        Ok(steps_from(m, Some(half), era_of(m + 2, joined, joined)))
    } else {
        Ok(steps_from(m, None, era_of(m + 1, joined, joined)))
    }
}

/// What a leave is answered.
fn leave_row(m: u32, n: u8, members: Members, id: AcceptorId) -> Result<[PlanStep; 5], PlanFault>
    requires { m < 100 }
{
    let mut rest = members;
    rest.remove(id);
    if !members.has(id) {
        Err(PlanFault::NotIn)
    } else if n == 1 {
        Err(PlanFault::Last)
    } else if [2, 4, 6, 8].contains(&n) {
        let half = era_of(m + 1, rest, members);
        Ok(steps_from(m, Some(half), era_of(m + 2, rest, rest)))
    } else {
        Ok(steps_from(m, None, era_of(m + 1, rest, rest)))
    }
}

#[test]
fn follow_the_table(rt: HostRuntime) {
    let mut members = Members::new();
    let mut used = Members::new();
    for n in 1..10u8 {
        for number in [7 * (n - 1), USED] {
            if let Some(id) = AcceptorId::new(number) {
                used.insert(id);
                if number != USED {
                    members.insert(id);
                }
            }
        }
        if members.count() == 0 {
            continue;
        }
        for m in [0, 7] {
            let era = Era::majority(m, members);
            for number in 0..64u8 {
                if let Some(id) = AcceptorId::new(number) {
                    let joined = Plan::join(&era, &used, id).map(|plan| played(plan));
                    assert!(rt;
                        joined == join_row(m, n, members, id),
                        "join {number} of {n} at {m}"
                    );
                    let left = Plan::leave(&era, id).map(|plan| played(plan));
                    assert!(rt;
                        left == leave_row(m, n, members, id),
                        "leave {number} of {n} at {m}"
                    );
                }
            }
        }
    }
}

/// The era of that number in which these members prepare and accept, in quorums of these sizes.
fn sized(number: u32, members: Members, (need_prep, need_acc): (u32, u32)) -> Era {
    Era {
        number,
        prep: members,
        need_prep,
        acc: members,
        need_acc,
    }
}

#[test]
fn resize_quorums_of_five(rt: HostRuntime) {
    let mut members = Members::new();
    for number in 0..5u8 {
        if let Some(id) = AcceptorId::new(number) {
            members.insert(id);
        }
    }
    if members.count() == 0 {
        return;
    }
    // The sizes that are asked for, those of the era between, and whether the plan is there at all.
    let rows = [
        ((4, 3), None, true),
        ((3, 4), None, true),
        ((3, 3), None, true),
        ((4, 2), Some((4, 3)), true),
        ((2, 4), Some((3, 4)), true),
        ((1, 5), Some((3, 5)), true),
        ((5, 1), Some((5, 3)), true),
        ((2, 2), None, false),
        ((0, 5), None, false),
        ((5, 0), None, false),
        ((6, 3), None, false),
        ((3, 6), None, false),
        ((2, 3), None, false),
    ];
    for m in [0, 7] {
        let era = Era::majority(m, members);
        for (sizes, between, there) in rows {
            let expected = match between {
                _ if !there => Err(PlanFault::BadSize),
                Some(most) => {
                    let half = sized(m + 1, members, most);
                    Ok(steps_from(m, Some(half), sized(m + 2, members, sizes)))
                }
                None => Ok(steps_from(m, None, sized(m + 1, members, sizes))),
            };
            let plan = Plan::resize(&era, sizes.0, sizes.1).map(|plan| played(plan));
            assert!(rt; plan == expected, "{sizes:?} at {m}");
        }
    }
}
