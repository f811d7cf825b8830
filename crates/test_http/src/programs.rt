//! Bodies, with the programs that they spell.

use cas_change_text::print_program;
use cas_http::Method;
use std::alloc::Global;
use std::test::Fail;

/// The program that the method runs over the body, as text.
fn program(alloc: Global, method: Method, body: &[u8]) -> Result<Option<Vec<u8>>, Fail> {
    match method.program(alloc, body)? {
        Some(program) => Ok(Some(print_program(alloc, &program)?)),
        None => Ok(None),
    }
}

/// Each body of a POST with its program.
#[test]
fn a_post_runs_the_program_of_its_body(rt: HostRuntime) -> Result<(), Fail> {
    for (body, want) in [
        (
            br#"[{"guard":"always","act":{"add":5}}]"#.as_slice(),
            b"always add 5".as_slice(),
        ),
        (
            br#" [ {"act" : "keep", "guard" : "empty"} ] "#,
            b"empty keep",
        ),
        (
            br#"[{"guard":{"version":18446744073709551615},"act":"clear"}]"#,
            b"version 18446744073709551615 clear",
        ),
        (
            br#"[{"guard":{"below":-9223372036854775808},"act":{"num":9223372036854775807}}]"#,
            b"below -9223372036854775808 num 9223372036854775807",
        ),
        (
            br#"[{"guard":{"is":"\u20ac"},"act":{"text":""}},{"guard":"always","act":"keep"}]"#,
            b"is %E2%82%AC text %- ; always keep",
        ),
        (
            br#"[{"guard":"always","act":{"add":5},"act":{"add":6}}]"#,
            b"always add 6",
        ),
    ] {
        let found = program(rt.alloc(), Method::Post, body)?.ok_or("no program")?;
        assert_eq!(rt; found.as_slice(), want, "at {body:?}");
    }
    Ok(())
}

/// Bodies that spell no program.
#[test]
fn other_bodies_spell_none(rt: HostRuntime) -> Result<(), Fail> {
    for body in [
        b"".as_slice(),
        b"[]",
        b"{}",
        b"[",
        br#"[{"guard":"always"}]"#,
        br#"[{"guard":"always","act":"keep","x":0}]"#,
        br#"[{"guard":"ALWAYS","act":"keep"}]"#,
        br#"[{"guard":{"version":-1},"act":"keep"}]"#,
        br#"[{"guard":{"version":1.0},"act":"keep"}]"#,
        br#"[{"guard":{"below":9223372036854775808},"act":"keep"}]"#,
        br#"[{"guard":{"below":-0},"act":"keep"}]"#,
        br#"[{"guard":{"version":1,"below":1},"act":"keep"}]"#,
        br#"[{"guard":"always","act":{"text":5}}]"#,
        br#"[{"guard":"always","act":"keep"}] x"#,
        b"[{\"guard\":\"always\",\"act\":{\"text\":\"\xff\"}}]",
    ] {
        assert_eq!(rt;
            program(rt.alloc(), Method::Post, body)?.is_none(),
            true,
            "at {body:?}"
        );
    }
    Ok(())
}

/// Eight clauses are a program, and nine are none; a text has 4,000 bytes, and no more.
#[test]
fn programs_and_texts_have_limits(rt: HostRuntime) -> Result<(), Fail> {
    for (clauses, bytes, want) in [(8, 4_000, true), (9, 0, false), (1, 4_001, false)] {
        let mut text = String::new(rt.alloc());
        for _ in 0..bytes {
            text.push('x')?;
        }
        let mut body = String::from_str(rt.alloc(), "[")?;
        for count in 0..clauses {
            if count > 0 {
                body.push(',')?;
            }
            write!(body, r#"{{"guard":"always","act":{{"text":"{text}"}}}}"#)?;
        }
        body.push(']')?;
        let found = program(rt.alloc(), Method::Post, body.as_bytes())?;
        assert_eq!(rt; found.is_some(), want, "{clauses} clauses, {bytes} bytes");
    }
    Ok(())
}

/// A GET keeps and a DELETE clears, whatever their body.
#[test]
fn other_methods_look_at_no_body(rt: HostRuntime) -> Result<(), Fail> {
    let kept = program(rt.alloc(), Method::Get, b"[")?.ok_or("no program")?;
    assert_eq!(rt; kept.as_slice(), b"always keep".as_slice());
    let cleared = program(rt.alloc(), Method::Delete, b"[")?.ok_or("no program")?;
    assert_eq!(rt; cleared.as_slice(), b"always clear".as_slice());
    Ok(())
}
