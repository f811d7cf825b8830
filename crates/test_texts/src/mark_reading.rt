//! Lines of marks, and lines that say none.

use cas_audit::{print_mark, read_mark};
use cas_change_text::Why;
use std::test::Fail;

/// Each line is the one that is printed for the mark that it says.
#[test]
fn reads_what_is_printed(rt: HostRuntime) -> Result<(), Fail> {
    let alloc = rt.alloc();
    for line in [
        b"begun 1.1 a always add 5".as_slice(),
        b"begun 255.4294967295 a empty num -7 ; is 50%25 text %-",
        b"proposed 1.1 a 1.1 read 0.0 era 0 by 1,2,3",
        b"voted 63 a 18446744073709551615.255",
        b"acked a 1.1 era 0 by -",
        b"acked a 1.1 era 0 by 0,9,10,63",
        b"floor a 7.1 empty",
        b"floor a 7.1 v3 text 50%25",
        b"entered 16 3",
        b"ended 1.1 1 done v0 num 5 at 1.1 clause 0",
        b"ended 1.1 1 done empty at 1.1 no clause",
        b"ended 1.1 1 done v0 text a at 1.1 unfit 7",
        b"ended 1.1 1 conflict 3.2",
        b"ended 1.1 1 aged 4",
        b"ended 1.1 1 full 5",
        b"ended 1.1 1 short 1 2",
        b"ended 1.1 1 moved 6",
        b"ended 1.1 1 crashed",
        b"ended 1.1 1 unsettled met 9.2",
        b"ended 1.1 1 unsettled aged 4",
        b"ended 1.1 1 unsettled full 5",
        b"ended 1.1 1 unsettled short 0 2",
        b"ended 1.1 1 unsettled moved 6",
        b"ended 1.1 1 unsettled crashed",
        b"ended 1.1 1 down",
        b"ended 1.1 1 vault fault",
        b"ended 1.1 1 spent",
        b"ended 1.1 1 record full",
        b"ended 1.1 1 no memory",
        b"ended 1.1 1 no memory proposed",
        b"harmed 2.9 fate",
        b"harmed 2.9 down",
        b"told join 4 -> joined 4 era 2 rescanned 7",
        b"told leave 4 -> left 4 era 2 rescanned 0",
        b"told join 4 -> already in",
        b"told leave 4 -> not in",
        b"told join 4 -> id used",
        b"told join 4 -> too many",
        b"told leave 4 -> last",
        b"told resize 4 2 -> resized 4 2 era 3 rescanned 5",
        b"told resize 9 2 -> bad size",
        b"told join 4 -> not majority",
        b"told read a -> short 1 2",
        b"told join 4 -> busy 2",
        b"told collect a -> collected a at 7.1 removed 3 kept 1",
        b"told collect a -> not empty v12",
        b"told join 4 -> absent 2",
        b"told join 4 -> proposer down 2",
        b"told probe a -> no memory",
        b"told join 4 -> unsettled short 1 2",
    ] {
        match read_mark(alloc, line) {
            Ok(mark) => assert_eq!(rt; print_mark(alloc, &mark)?.as_slice(), line),
            Err(refusal) => assert!(rt; false, "{line:?} {refusal:?}"),
        }
    }
    Ok(())
}

/// Each line with the refusal that it gets.
#[test]
fn refuses_at_the_first_word(rt: HostRuntime) {
    for (line, why, word) in [
        (b"".as_slice(), Why::NoWord, 0),
        (b" \t", Why::NoWord, 0),
        (b"began 1.1 a always add 5", Why::UnknownWord, 0),
        (b"begun", Why::NoWord, 1),
        (b"begun 1 a always add 5", Why::BadNumber, 1),
        (b"begun 1.1.1 a always add 5", Why::BadNumber, 1),
        (b"begun .1 a always add 5", Why::BadNumber, 1),
        (b"begun 256.1 a always add 5", Why::BadNumber, 1),
        (b"begun 1.4294967296 a always add 5", Why::BadNumber, 1),
        (b"begun 1.1 a always", Why::NoWord, 4),
        (b"begun 1.1 a always add 5 ;", Why::NoWord, 7),
        (b"voted 64 a 1.1", Why::BadNumber, 1),
        (b"voted 1 caf\xC3\xA9 1.1", Why::UnknownWord, 2),
        (b"voted 1 a 1.256", Why::BadNumber, 3),
        (b"voted 1 a 1.1 1", Why::UnknownWord, 4),
        (b"acked a 1.1 era 0 by", Why::NoWord, 6),
        (b"acked a 1.1 era 0 by 2,1", Why::BadNumber, 6),
        (b"acked a 1.1 era 0 by 1,1", Why::BadNumber, 6),
        (b"acked a 1.1 era 0 by 1,", Why::BadNumber, 6),
        (b"acked a 1.1 era 0 by ,1", Why::BadNumber, 6),
        (b"acked a 1.1 era 0 by 1,64", Why::BadNumber, 6),
        (b"acked a 1.1 era 0 of 1", Why::UnknownWord, 5),
        (b"floor a 7.1 3 num 1", Why::UnknownWord, 3),
        (b"floor a 7.1 vx num 1", Why::BadNumber, 3),
        (b"ended 1.1 1 done empty at 1.1", Why::NoWord, 7),
        (b"ended 1.1 1 done empty at 1.1 unfit", Why::NoWord, 8),
        (b"ended 1.1 1 no memory at all", Why::UnknownWord, 5),
        (b"harmed 2.9", Why::NoWord, 2),
        (b"harmed 2.9 up", Why::UnknownWord, 2),
        (b"told resize 4 -> bad size", Why::BadNumber, 3),
        (b"told resize 4 2 -> bad sizes", Why::UnknownWord, 6),
        (b"told resize 4 2 -> resized 4 -2", Why::BadNumber, 7),
        (b"told join 4 -> not empty 12", Why::UnknownWord, 6),
        (b"told join 4 -> not empty vx", Why::BadNumber, 6),
        (b"told join 4 -> probed a", Why::UnknownWord, 4),
        (b"told join 4 -> done empty at 1.1", Why::UnknownWord, 4),
    ] {
        match read_mark(rt.alloc(), line) {
            Ok(_) => assert!(rt; false, "{line:?}"),
            Err(refusal) => {
                assert_eq!(rt; (refusal.why, refusal.word), (why, word), "at {line:?}");
            }
        }
    }
}
