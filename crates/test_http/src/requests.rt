//! Whole requests, with what each asks for.

use cas_change_text::print_program;
use cas_http::{Code, Request, read_request};
use std::alloc::Global;
use std::test::Fail;

/// What a request asks for, as text: a code, or a key and a program.
fn asked(alloc: Global, request: &Request) -> Result<String, Fail> {
    match request {
        Request::Refused(code) => Ok(format!(in alloc; "{code:?}")?),
        Request::Change(key, program) => {
            let program = print_program(alloc, program)?;
            Ok(format!(in alloc; "{:?} {:?}", key.bytes(), program.as_slice())?)
        }
    }
}

/// A change, as `asked` tells it.
fn change(alloc: Global, key: &[u8], program: &[u8]) -> Result<String, Fail> {
    Ok(format!(in alloc; "{key:?} {program:?}")?)
}

const GET: &[u8] = b"GET /r/a HTTP/1.1\r\nHost: h\r\n\r\n";

const POST: &[u8] =
    b"POST /r/a HTTP/1.1\r\nHost: h\r\nContent-Length: 36\r\n\r\n[{\"guard\":\"always\",\"act\":{\"add\":5}}]";

/// Two requests in one input, each asked for byte by byte.
#[test]
fn requests_are_read_one_after_another(rt: HostRuntime) -> Result<(), Fail> {
    for (bytes, program) in [(GET, b"always keep".as_slice()), (POST, b"always add 5")] {
        for count in 0..bytes.len() {
            assert!(rt;
                read_request(rt.alloc(), &bytes[..count])?.is_none(),
                "{count} bytes"
            );
        }
        let mut more = bytes.to_vec(rt.alloc())?;
        more.extend_from_slice(POST)?;
        let told = read_request(rt.alloc(), &more)?.ok_or("no request")?;
        assert_eq!(rt; told.length, bytes.len());
        assert_eq!(rt; told.last, false);
        let want = change(rt.alloc(), b"a", program)?;
        assert_eq!(rt; asked(rt.alloc(), &told.request)?.as_str(), want.as_str());
    }
    Ok(())
}

/// Refused requests: how many bytes of body are read before the answer, and whether the connection closes behind it.
#[test]
fn bodies_of_refused_requests_are_read_or_left(rt: HostRuntime) -> Result<(), Fail> {
    for (head, code, read, last) in [
        (
            "PUT /r/a HTTP/1.1\r\nHost: h\r\nContent-Length: 2\r\n\r\n",
            Code::MethodNotAllowed,
            2,
            false,
        ),
        (
            "GET /s HTTP/1.1\r\nHost: h\r\nContent-Length: 2\r\n\r\n",
            Code::NotFound,
            2,
            false,
        ),
        ("GET /s HTTP/1.0\r\n\r\n", Code::NotFound, 0, true),
        (
            "POST /r/a HTTP/1.1\r\nHost: h\r\nContent-Length: 2\r\n\r\n",
            Code::Unprocessable,
            2,
            false,
        ),
        (
            "POST /r/a HTTP/1.1\r\nHost: h\r\n\r\n",
            Code::LengthRequired,
            0,
            true,
        ),
        (
            "POST /r/a HTTP/1.1\r\nHost: h\r\nContent-Length: 65537\r\n\r\n",
            Code::ContentTooLarge,
            0,
            true,
        ),
        (
            "GET /r/a HTTP/1.1\r\nContent-Length: 2\r\n\r\n",
            Code::BadRequest,
            0,
            true,
        ),
        (
            "GET /r/a HTTP/1.1\r\nHost: h\r\nContent-Length: 2\r\nTransfer-Encoding: chunked\r\n\r\n",
            Code::NotImplemented,
            0,
            true,
        ),
    ] {
        let bytes = format!(in rt.alloc(); "{head}[]GET")?;
        let told = read_request(rt.alloc(), bytes.as_bytes())?.ok_or("no request")?;
        assert_eq!(rt; told.request, Request::Refused(code));
        assert_eq!(rt; told.last, last, "at {head}");
        let count = told.length;
        assert!(rt; count >= head.len(), "{count} bytes of {head}");
        assert_eq!(rt; count - head.len(), read, "at {head}");
    }
    Ok(())
}
