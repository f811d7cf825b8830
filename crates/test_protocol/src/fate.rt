use cas_ballot::AcceptorId;
use cas_fate::{Fate, Generator, Leg, Links, Seeded, Verdict};
use rand_core::SeedableRng;
use rand_core::utils::NextWord;
use rand_pcg::Pcg32;

// The first four words by this seed.
fn first_words(seed: u64) -> [u32; 4] {
    let mut random = Pcg32::seed_from_u64(seed);
    [
        random.next_word(),
        random.next_word(),
        random.next_word(),
        random.next_word(),
    ]
}

// What becomes of a frame of this leg to or from acceptor 2.
fn asked<F: Fate>(fate: &mut F, leg: Leg) -> Verdict {
    match AcceptorId::new(2) {
        Some(peer) => fate.verdict(leg, peer),
        None => Verdict::Hold,
    }
}

#[test]
fn words_are_those_of_the_seed(rt: HostRuntime) {
    for (seed, want) in [
        (0, [298703107, 4236525527, 336081875, 1056616254]),
        (1, [866585574, 2109535214, 3403630417, 296513984]),
        (2, [663514024, 4050668357, 535747897, 1254972678]),
    ] {
        assert_eq!(rt; first_words(seed), want, "seed {seed}");
    }
}

#[test]
fn a_table_answers_what_was_set(rt: HostRuntime) {
    let mut links = Links::new();
    let legs = [
        (Leg::Prepare, Verdict::Deliver, 0),
        (Leg::Accept, Verdict::Lose, 1),
        (Leg::Ages, Verdict::Twice, 1),
        (Leg::Remove, Verdict::Late, 2),
        (Leg::List, Verdict::Hold, 3),
        (Leg::Probe, Verdict::Deliver, 3),
        (Leg::Reply, Verdict::Lose, 4),
    ];
    for (leg, verdict, _) in legs {
        assert_eq!(rt; asked(&mut links, leg), Verdict::Deliver);
        for peer in [2, 63] {
            if let Some(peer) = AcceptorId::new(peer) {
                links.set(leg, peer, verdict);
            }
        }
    }
    for (leg, verdict, harms) in legs {
        assert_eq!(rt; asked(&mut links, leg), verdict, "{leg:?}");
        assert_eq!(rt; links.harms(), harms, "{leg:?}");
        assert_eq!(rt; links.stray(1), None);
    }
    if let Some(other) = AcceptorId::new(3) {
        assert_eq!(rt; links.verdict(Leg::Accept, other), Verdict::Deliver);
    }
}

#[test]
fn a_seeded_fate_answers_by_its_words(rt: HostRuntime) {
    let mut fate = Seeded::new(1);
    for place in 0..43 {
        let want = match place {
            34 => Verdict::Twice,
            38 => Verdict::Lose,
            42 => Verdict::Late,
            _ => Verdict::Deliver,
        };
        assert_eq!(rt; asked(&mut fate, Leg::Accept), want, "word {place}");
    }
    assert_eq!(rt; fate.harms(), 2);
}

#[test]
fn a_stray_takes_a_second_word(rt: HostRuntime) {
    let mut fate = Seeded::new(1);
    for place in 0..32 {
        let want = match place {
            3 => Some(5),
            6 | 18 => Some(0),
            31 => Some(1),
            _ => None,
        };
        assert_eq!(rt; fate.stray(7), want, "stray {place}");
    }
    let mut fate = Seeded::new(1);
    for place in 0..4 {
        assert_eq!(rt; fate.stray(0), None, "stray {place}");
    }
    assert_eq!(rt; fate.harms(), 0);
}

#[test]
fn lines_are_drawn_by_three_words(rt: HostRuntime) {
    for (proposers, callers) in [(1, [1, 1, 1, 1]), (2, [1, 1, 1, 1]), (16, [7, 1, 9, 9])] {
        let mut generator = Generator::new(1);
        for (caller, (key, kind)) in callers
            .iter()
            .copied()
            .zip([(14, 7), (27, 0), (0, 6), (3, 6)])
        {
            let line = generator.next(proposers);
            assert_eq!(rt; (line.caller, line.key, line.kind), (caller, key, kind));
        }
    }
}
