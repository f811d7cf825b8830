//! Sinks in memory and over std's writers.

use cas_lines::sink::{MemorySink, Sink, StdSink, put_all};
use cas_lines::source::Failed;
use std::test::Fail;

#[test]
fn takes_bytes_in_pieces(rt: HostRuntime) -> Result<(), Fail> {
    let mut sink = MemorySink::new(rt.alloc(), 3, [3].to_vec(rt.alloc())?);
    put_all(&mut sink, b"abcd")?;
    assert_eq!(rt; sink.bytes(), b"abcd".as_slice());
    assert_eq!(rt; put_all(&mut sink, b"efgh"), Err(Failed));
    assert_eq!(rt; sink.bytes(), b"abcd".as_slice());
    assert_eq!(rt; sink.faults(), 1);
    assert_eq!(rt; sink.put(b"efgh"), Ok(3));
    assert_eq!(rt; sink.put(b""), Ok(0));
    assert_eq!(rt; sink.bytes(), b"abcdefg".as_slice());
    assert_eq!(rt; sink.faults(), 1);
    Ok(())
}

#[test]
fn leaves_a_front_after_a_fault(rt: HostRuntime) -> Result<(), Fail> {
    let mut sink = MemorySink::new(rt.alloc(), 3, [3].to_vec(rt.alloc())?);
    assert_eq!(rt; put_all(&mut sink, b"abcdefgh"), Err(Failed));
    assert_eq!(rt; sink.bytes(), b"abcdef".as_slice());
    Ok(())
}

#[test]
fn writes_to_a_std_writer(rt: HostRuntime) -> Result<(), Fail> {
    let mut text = Vec::new(rt.alloc());
    let mut sink = StdSink::over(&mut text);
    put_all(&mut sink, b"abc")?;
    assert_eq!(rt; sink.faults(), 0);
    drop(sink);
    assert_eq!(rt; text.as_slice(), b"abc".as_slice());
    let mut room = [0; 2];
    let mut sink = StdSink::over(room.as_mut_slice());
    assert_eq!(rt; put_all(&mut sink, b"abc"), Err(Failed));
    assert_eq!(rt; sink.faults(), 1);
    Ok(())
}
