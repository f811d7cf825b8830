use cas_change_text::decimal::{read_i64, read_u64};

// A word, and what it is as a number with a sign and with none.
const WORDS: [(&[u8], Option<i64>, Option<u64>); 20] = [
    (b"0", Some(0), Some(0)),
    (b"-0", Some(0), None),
    (b"007", Some(7), Some(7)),
    (b"-12", Some(-12), None),
    (
        b"9223372036854775807",
        Some(i64::MAX),
        Some(0x7FFF_FFFF_FFFF_FFFF),
    ),
    (b"9223372036854775808", None, Some(0x8000_0000_0000_0000)),
    (b"-9223372036854775808", Some(i64::MIN), None),
    (b"-9223372036854775809", None, None),
    (b"18446744073709551615", None, Some(u64::MAX)),
    (b"18446744073709551616", None, None),
    (b"99999999999999999999", None, None),
    (b"00000000000000000000", Some(0), Some(0)),
    (b"-00000000000000000042", Some(-42), None),
    (b"000000000000000000000", None, None),
    (b"", None, None),
    (b"-", None, None),
    (b"--1", None, None),
    (b"+1", None, None),
    (b"1x", None, None),
    (b" 1", None, None),
];

#[test]
fn reads_words(rt: HostRuntime) {
    for (word, signed, unsigned) in WORDS {
        let found = (read_i64(word), read_u64(word));
        assert_eq!(rt; found, (signed, unsigned), "at {word:?}");
    }
}
