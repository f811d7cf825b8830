use cas_ballot::{AcceptorId, Members};

fn set_of(numbers: &[u8]) -> Members {
    let mut members = Members::new();
    for &number in numbers {
        if let Some(id) = AcceptorId::new(number) {
            members.insert(id);
        }
    }
    members
}

#[test]
fn have_what_was_put_in(rt: HostRuntime) {
    let mut members = set_of(&[63, 0, 5, 5]);
    assert_eq!(rt; members.count(), 3);
    for number in 0..64 {
        if let Some(id) = AcceptorId::new(number) {
            assert_eq!(rt; members.has(id), [0, 5, 63].contains(&number), "{number}");
        }
    }
    assert!(rt; members.union(&set_of(&[5, 7])) == set_of(&[0, 5, 7, 63]));
    assert!(rt; members.intersection(&set_of(&[5, 7, 63])) == set_of(&[5, 63]));
    for number in [5, 6] {
        if let Some(id) = AcceptorId::new(number) {
            members.remove(id);
        }
    }
    assert!(rt; members == set_of(&[0, 63]));
}

#[test]
fn end_behind_their_greatest(rt: HostRuntime) {
    for (numbers, end) in [
        (&[][..], 0),
        (&[0][..], 1),
        (&[4, 2][..], 5),
        (&[63, 0][..], 64),
    ] {
        assert_eq!(rt; set_of(numbers).end(), end);
    }
}
