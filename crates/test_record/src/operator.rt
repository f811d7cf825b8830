use cas_ballot::AcceptorId;
use cas_change::Key;
use cas_record::{Asked, Mark, OpAnswer, Probe, Probes, Record};
use cas_slot::Tell;
use std::test::Fail;

#[test]
fn is_marked_with_its_answer(rt: HostRuntime) -> Result<(), Fail> {
    let alloc = rt.alloc();
    let mut probes = Vec::new(alloc);
    probes.push(Probe {
        acceptor: AcceptorId::new(2).unwrap(),
        told: Some(Tell::Full),
    })?;
    let found = Probes::new(probes);
    assert_eq!(rt; found.probes().len(), 1);
    let key = Key::read(alloc, b"a")?;
    let answer = OpAnswer::Probed { key, found };
    let asked = Asked::Probe(Key::read(alloc, b"a")?);
    let mut record = Record::new(alloc);
    record.reserve(1)?;
    record.push(Mark::Told { asked, answer });
    assert!(rt;
        matches!(
            record.marks(),
            [Mark::Told {
                asked: Asked::Probe(_),
                answer: OpAnswer::Probed { .. }
            }]
        )
    );
    Ok(())
}
