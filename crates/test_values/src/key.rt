use cas_change::{Key, KeyFault};
use std::alloc::Global;
use std::collections::BTreeMap;
use std::test::Fail;

// Bytes, and why they are no key.
const KEYS: [(&[u8], Option<KeyFault>); 14] = [
    (b"", Some(KeyFault::Empty)),
    (b"a", None),
    (b"visits/2018-02", None),
    (b"!", None),
    (b"~", None),
    (b" ", Some(KeyFault::BadByte { at: 0 })),
    (b"\x7F", Some(KeyFault::BadByte { at: 0 })),
    (b"a b c", Some(KeyFault::BadByte { at: 1 })),
    (b"ab\n", Some(KeyFault::BadByte { at: 2 })),
    (b"\xC3\xA9", Some(KeyFault::BadByte { at: 0 })),
    (&[b'k'; 64], None),
    (&[b'k'; 65], Some(KeyFault::TooLong)),
    (&[b' '; 64], Some(KeyFault::BadByte { at: 0 })),
    (&[b' '; 65], Some(KeyFault::TooLong)),
];

// Whether the bytes are read as a key, or refused so.
fn is_read(alloc: Global, bytes: &[u8], want: Option<KeyFault>) -> bool {
    match Key::read(alloc, bytes) {
        Ok(key) => want == None && key.bytes() == bytes,
        Err(fault) => want == Some(fault),
    }
}

#[test]
fn reads_keys(rt: HostRuntime) {
    for (bytes, want) in KEYS {
        assert!(rt; is_read(rt.alloc(), bytes, want), "{bytes:?}");
    }
}

/// Keys in the order of their bytes. Some have their first eight bytes in common, and some begin another.
const IN_ORDER: [&[u8]; 8] = [
    b"B",
    b"a",
    b"ab",
    b"abcdefgh",
    b"abcdefgh!",
    b"abcdefgha",
    b"abcdefghb",
    b"b",
];

#[test]
fn orders_by_bytes(rt: HostRuntime) -> Result<(), Fail> {
    let mut places = BTreeMap::new(rt.alloc());
    for (place, bytes) in IN_ORDER.iter().enumerate().rev() {
        let key = Key::read(rt.alloc(), bytes)?;
        let copy = key.copy()?;
        assert!(rt; copy == key);
        places.insert(copy, place)?;
    }
    assert!(rt; places.values().copied().eq(0..IN_ORDER.len()));
    for (place, bytes) in IN_ORDER.iter().enumerate() {
        assert_eq!(rt; places.get(&Key::read(rt.alloc(), bytes)?), Some(&place));
    }
    Ok(())
}
