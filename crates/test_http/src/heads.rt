//! Heads, with what is told of them.

use cas_change::Key;
use cas_http::{Asks, Code, Front, Head, MOST_HEAD, Method, read_front};
use std::alloc::{AllocError, Global};
use std::test::Fail;

/// The code with which the bytes are refused, if they are.
fn refusal(alloc: Global, bytes: &[u8]) -> Result<Option<Code>, AllocError> {
    Ok(match &read_front(alloc, bytes)? {
        Front::Whole(head) => match &head.asks {
            Asks::Refused(code) => Some(*code),
            Asks::Change(..) => None,
        },
        Front::Refused(code) => Some(*code),
        Front::Open => None,
    })
}

/// A head that is asked for byte by byte, and with another behind it.
#[test]
fn a_head_is_whole_at_its_last_byte(rt: HostRuntime) -> Result<(), Fail> {
    let bytes = b"POST /r/a HTTP/1.1\r\nHost: h\r\nContent-Length: 36\r\n\r\n";
    for count in 0..bytes.len() {
        assert_eq!(rt;
            read_front(rt.alloc(), &bytes[..count])?,
            Front::Open,
            "{count} bytes"
        );
    }
    let want = Front::Whole(Head {
        length: bytes.len(),
        body: 36,
        last: false,
        asks: Asks::Change(
            Method::Post,
            Key::read(rt.alloc(), b"a").ok().ok_or("a key")?,
        ),
    });
    assert_eq!(rt; read_front(rt.alloc(), bytes)?, want);
    let mut more = bytes.to_vec(rt.alloc())?;
    more.extend_from_slice(b"GET /r/b HTTP/1.1\r\n")?;
    assert_eq!(rt; read_front(rt.alloc(), &more)?, want);
    Ok(())
}

/// Each head with the code of its refusal.
#[test]
fn the_first_cause_gives_the_code(rt: HostRuntime) -> Result<(), Fail> {
    for (bytes, want) in [
        (b"GET /r/a HTTP/1.1\r\nHost: h\r\n\r\n".as_slice(), None),
        (b"GET /r/a HTTP/1.1\nhOsT:\n\n", None),
        (b"GET /r/a HTTP/1.0\r\n\r\n", None),
        (b"GET /r/%41/b?c HTTP/1.1\r\nHost: h\r\n\r\n", None),
        (b"GET /r/a HTTP/1.1\r\n\r\n", Some(Code::BadRequest)),
        (
            b"GET /r/a HTTP/1.1\r\nHost: h\r\nHOST: h\r\n\r\n",
            Some(Code::BadRequest),
        ),
        (
            b"GET /r/a HTTP/1.0\r\nHost: h\r\nHost: h\r\n\r\n",
            Some(Code::BadRequest),
        ),
        (
            b"GET /r/a HTTP/1.2\r\nHost: h\r\n\r\n",
            Some(Code::BadRequest),
        ),
        (
            b"GET /r/a HTTP/1.1\r\nHost : h\r\n\r\n",
            Some(Code::BadRequest),
        ),
        (b"\x00", Some(Code::BadRequest)),
        (
            b"PUT /r/a HTTP/1.1\r\nHost: h\r\n\r\n",
            Some(Code::MethodNotAllowed),
        ),
        (
            b"HEAD /r/a HTTP/1.1\r\nHost: h\r\n\r\n",
            Some(Code::MethodNotAllowed),
        ),
        (
            b"get /r/a HTTP/1.1\r\nHost: h\r\n\r\n",
            Some(Code::MethodNotAllowed),
        ),
        (
            b"PUT /s HTTP/1.1\r\nHost: h\r\n\r\n",
            Some(Code::MethodNotAllowed),
        ),
        (
            b"GET /s/a HTTP/1.1\r\nHost: h\r\n\r\n",
            Some(Code::NotFound),
        ),
        (b"GET /r/ HTTP/1.1\r\nHost: h\r\n\r\n", Some(Code::NotFound)),
        (
            b"POST /s/a HTTP/1.1\r\nHost: h\r\n\r\n",
            Some(Code::NotFound),
        ),
        (
            b"POST /r/a HTTP/1.1\r\nHost: h\r\n\r\n",
            Some(Code::LengthRequired),
        ),
        (
            b"GET /s HTTP/1.1\r\nHost: h\r\nTransfer-Encoding: chunked\r\n\r\n",
            Some(Code::NotImplemented),
        ),
        (
            b"GET /r/a HTTP/1.1\r\nTransfer-Encoding: chunked\r\n\r\n",
            Some(Code::BadRequest),
        ),
    ] {
        assert_eq!(rt; refusal(rt.alloc(), bytes)?, want, "at {bytes:?}");
    }
    Ok(())
}

/// Content-Lengths with the code of the refusal, or the bytes of body that are read.
#[test]
fn a_length_is_one_number_of_ten_digits(rt: HostRuntime) -> Result<(), Fail> {
    for (fields, want) in [
        ("Content-Length: 36\r\n", Ok(36)),
        ("CONTENT-LENGTH:\t0000000036 \r\n", Ok(36)),
        ("Content-Length: 65536\r\n", Ok(65_536)),
        ("Content-Length: 65537\r\n", Err(Code::ContentTooLarge)),
        ("Content-Length: 9999999999\r\n", Err(Code::ContentTooLarge)),
        ("Content-Length: 00000000036\r\n", Err(Code::BadRequest)),
        ("Content-Length: +36\r\n", Err(Code::BadRequest)),
        ("Content-Length: 36, 36\r\n", Err(Code::BadRequest)),
        ("Content-Length:\r\n", Err(Code::BadRequest)),
        (
            "Content-Length: 36\r\ncontent-length: 36\r\n",
            Err(Code::BadRequest),
        ),
    ] {
        let text = format!(in rt.alloc(); "POST /r/a HTTP/1.1\r\nHost: h\r\n{fields}\r\n")?;
        let Front::Whole(head) = read_front(rt.alloc(), text.as_bytes())? else {
            panic!(rt; "no whole head: {text}");
        };
        let read = match &head.asks {
            Asks::Refused(code) => Err(*code),
            Asks::Change(..) => Ok(head.body),
        };
        assert_eq!(rt; read, want, "at {text}");
        assert!(rt; read.is_ok() || head.body == 0, "a body is read: {text}");
    }
    Ok(())
}

/// Connection fields, and whether the connection closes behind the answer.
#[test]
fn a_connection_closes_where_a_word_says_so(rt: HostRuntime) -> Result<(), Fail> {
    for (rest, want) in [
        ("HTTP/1.1\r\nHost: h\r\n", false),
        ("HTTP/1.0\r\nHost: h\r\n", true),
        ("HTTP/1.1\r\nHost: h\r\nConnection: close\r\n", true),
        (
            "HTTP/1.1\r\nHost: h\r\nconnection: keep-alive, Close\r\n",
            true,
        ),
        (
            "HTTP/1.1\r\nHost: h\r\nConnection: keep-alive\r\nConnection: close\r\n",
            true,
        ),
        ("HTTP/1.1\r\nHost: h\r\nConnection: closed\r\n", false),
        ("HTTP/1.1\r\nHost: h\r\nX: close\r\n", false),
    ] {
        let text = format!(in rt.alloc(); "GET /r/a {rest}\r\n")?;
        let Front::Whole(head) = read_front(rt.alloc(), text.as_bytes())? else {
            panic!(rt; "no whole head: {text}");
        };
        assert_eq!(rt; head.last, want, "at {text}");
    }
    Ok(())
}

/// A head one byte below the limit is waited for, and one at it is not.
#[test]
fn a_head_has_a_limit(rt: HostRuntime) -> Result<(), Fail> {
    let mut bytes = b"GET /r/a HTTP/1.1\r\nHost: ".to_vec(rt.alloc())?;
    for _ in bytes.len()..MOST_HEAD - 1 {
        bytes.push(b'h')?;
    }
    assert_eq!(rt; read_front(rt.alloc(), &bytes)?, Front::Open);
    bytes.push(b'h')?;
    assert_eq!(rt;
        read_front(rt.alloc(), &bytes)?,
        Front::Refused(Code::HeadTooLarge)
    );
    bytes.extend_from_slice(b"\r\n\r\n")?;
    assert_eq!(rt;
        read_front(rt.alloc(), &bytes)?,
        Front::Refused(Code::HeadTooLarge)
    );
    Ok(())
}
