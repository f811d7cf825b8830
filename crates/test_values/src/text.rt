use cas_change::{Text, TextFault};
use std::alloc::Global;
use std::test::Fail;

// Whether the bytes are read as a text, or are too many.
fn is_read(alloc: Global, bytes: &[u8], fits: bool) -> Result<bool, TextFault> {
    match Text::read(alloc, bytes) {
        Ok(text) => Ok(fits && text.bytes() == bytes && text.copy()? == text),
        Err(fault) => Ok(!fits && fault == TextFault::TooLong),
    }
}

// Bytes, and whether they are a text.
const TEXTS: [(&[u8], bool); 5] = [
    (b"", true),
    (b"hello all", true),
    (b"\x00 \n\xFF", true),
    (&[b't'; 4_000], true),
    (&[b't'; 4_001], false),
];

#[test]
fn reads_texts(rt: HostRuntime) -> Result<(), Fail> {
    for (bytes, fits) in TEXTS {
        assert!(rt; is_read(rt.alloc(), bytes, fits)?, "{bytes:?}");
    }
    Ok(())
}
