//! Sources in memory and over std's readers.

use cas_lines::source::{Failed, MemorySource, Source, StdSource};
use std::io::{self, ErrorKind, Read};
use std::test::Fail;

#[test]
fn gives_bytes_in_pieces(rt: HostRuntime) -> Result<(), Fail> {
    let bytes = b"abcdefghij";
    for (piece, first, third) in [
        (1, b"a".as_slice(), b"b".as_slice()),
        (7, b"abcdefg".as_slice(), b"hij".as_slice()),
    ] {
        let failing = [2].to_vec(rt.alloc())?;
        let mut source = MemorySource::new(bytes.to_vec(rt.alloc())?, piece, failing);
        let mut buf = [0; 9];
        assert_eq!(rt; source.take(&mut buf), Ok(first.len()), "piece {piece}");
        assert_eq!(rt; buf.get(..first.len()), Some(first), "piece {piece}");
        assert_eq!(rt; source.faults(), 0);
        assert_eq!(rt; source.take(&mut buf), Err(Failed), "piece {piece}");
        assert_eq!(rt; source.faults(), 1);
        assert_eq!(rt; source.take(&mut buf), Ok(third.len()), "piece {piece}");
        assert_eq!(rt; buf.get(..third.len()), Some(third), "piece {piece}");
        assert_eq!(rt; source.take(&mut []), Ok(0));
    }
    Ok(())
}

#[test]
fn ends_with_nothing(rt: HostRuntime) -> Result<(), Fail> {
    let mut source = MemorySource::new(Vec::new(rt.alloc()), 1, Vec::new(rt.alloc()));
    assert_eq!(rt; source.take(&mut [0; 4]), Ok(0));
    Ok(())
}

/// A reader into which a signal cuts before it gives its byte.
#[derive(Drop)]
struct Interrupted {
    cuts: u32,
}

impl Read for Interrupted {
    fn read(&mut self, buf: &mut [u8]) -> io::Result<usize> {
        if self.cuts > 0 {
            self.cuts -= 1;
            return Err(ErrorKind::Interrupted.into());
        }
        match buf {
            [first, ..] => {
                *first = b'a';
                Ok(1)
            }
            [] => Ok(0),
        }
    }
}

#[test]
fn reads_again_where_a_signal_cuts_in(rt: HostRuntime) {
    let mut source = StdSource::over(Interrupted { cuts: 3 });
    let mut buf = [0; 2];
    assert_eq!(rt; source.take(&mut buf), Ok(1));
    assert_eq!(rt; buf[0], b'a');
    assert_eq!(rt; source.faults(), 0);
}

#[test]
fn reads_from_a_std_reader(rt: HostRuntime) {
    let mut source = StdSource::over(b"abc".as_slice());
    let mut buf = [0; 2];
    assert_eq!(rt; source.take(&mut buf), Ok(2));
    assert_eq!(rt; buf.as_slice(), b"ab".as_slice());
    assert_eq!(rt; source.take(&mut buf), Ok(1));
    assert_eq!(rt; buf[0], b'c');
    assert_eq!(rt; source.take(&mut buf), Ok(0));
    assert_eq!(rt; source.faults(), 0);
}
