//! Whole connections over a changer that answers as its keys say.

ghost use Rattle.std.specs.Prelude.{⊤};

use cas_ballot::Ballot;
use cas_change::{Body, Key, Program, State, Took};
use cas_change_text::print_program;
use cas_http_connection::{Changer, ConnectionFault, serve};
use cas_lines::sink::MemorySink;
use cas_lines::source::MemorySource;
use cas_record::{Answer, Cause};
use std::alloc::{AllocError, Global};
use std::process::Abort;
use std::test::Fail;

/// A changer that notes which changes it is asked for.
///
/// A change of `c` meets a conflict, and one of `u` is not settled. Every other is done, at a ballot of the number of changes so far. The
/// first leaves nothing, and the others leave 5.
#[derive(Drop)]
struct Noting {
    alloc: Global,
    notes: String,
    count: u64,
}

impl Noting {
    fn new(alloc: Global) -> Noting {
        Noting {
            alloc,
            notes: String::new(alloc),
            count: 0,
        }
    }

    /// Notes the key and the program, if there are few notes.
    fn note(&mut self, key: &Key, program: &Program) -> Result<(), AllocError> {
        if self.notes.len() > 1_000 {
            return Ok(());
        }
        let program = print_program(self.alloc, program)?;
        let key = key.bytes();
        let program = program.as_slice();
        let note = format!(in self.alloc; "{key:?}{program:?};")?;
        self.notes.push_str(&note)
    }

    /// What the change is answered whose number that is.
    fn told(&self, key: &Key) -> Answer {
        let ballot = Ballot {
            counter: self.count,
            proposer: 1,
        };
        match key.bytes() {
            b"c" => Answer::Conflict { met: ballot },
            b"u" => Answer::Unsettled {
                why: Cause::Crashed,
            },
            _ => Answer::Done {
                state: if self.count == 1 {
                    State::Empty
                } else {
                    State::Held {
                        version: 0,
                        body: Body::Number(5),
                    }
                },
                took: Took::Clause(0),
                ballot,
            },
        }
    }
}

impl Changer for Noting {
    ghost change_gives = { λ _ _ _ _ _. ⊤ };

    fn change(&mut self, key: &Key, program: &Program) -> Answer {
        self.count = self.count.saturating_add(1);
        match self.note(key, program) {
            Ok(()) => self.told(key),
            Err(AllocError) => Answer::NoMemory { proposed: false },
        }
    }
}

/// An answer with this code, fields behind those that each has, and body.
fn answer(alloc: Global, code: &str, fields: &str, body: &str) -> Result<String, AllocError> {
    let size = body.len();
    format!(in alloc;
        "HTTP/1.1 {code}\r\nContent-Type: application/json\r\nContent-Length: {size}\r\n{fields}\r\n{body}"
    )
}

const GET: &str = "GET /r/a HTTP/1.1\r\nHost: h\r\n\r\n";

const POST: &str =
    "POST /r/a HTTP/1.1\r\nHost: h\r\nContent-Length: 36\r\n\r\n[{\"guard\":\"always\",\"act\":{\"add\":5}}]";

const PUT: &str = "PUT /r/a HTTP/1.1\r\nHost: h\r\n\r\n";

const CONFLICT: &str = "DELETE /r/c HTTP/1.1\r\nHost: h\r\n\r\n";

const UNSETTLED: &str = "GET /r/u HTTP/1.1\r\nHost: h\r\n\r\n";

const CLOSE: &str = "Connection: close\r\n";

const ALLOW: &str = "Allow: GET, POST, DELETE\r\n";

const NOTHING: &str = "{\"at\":\"1.1\",\"state\":null,\"took\":0}";

const FIVE: &str = "{\"at\":\"2.1\",\"state\":{\"num\":5,\"version\":0},\"took\":0}";

/// What came of a connection.
#[derive(Drop)]
struct Outcome {
    ended: Result<(), ConnectionFault>,
    /// What was written.
    text: String,
    /// The changes that were asked for.
    notes: String,
    count: u64,
}

/// What comes of a connection over these bytes. They come in such pieces, and the calls of these numbers fail.
fn connect(
    alloc: Global,
    bytes: &str,
    piece: usize,
    source_fails: u64,
    sink_fails: u64,
) -> Result<Outcome, Fail> {
    let failing = Vec::from_slice(alloc, &[source_fails])?;
    let mut source = MemorySource::new(bytes.as_bytes().to_vec(alloc)?, piece.max(1), failing);
    let mut sink = MemorySink::new(alloc, 50, Vec::from_slice(alloc, &[sink_fails])?);
    let mut changer = Noting::new(alloc);
    let ended = serve(alloc, &mut source, &mut sink, &mut changer);
    let text = String::from_utf8(sink.bytes().to_vec(alloc)?).map_err(|_| "no text")?;
    let Noting { notes, count, .. } = changer;
    Ok(Outcome {
        ended,
        text,
        notes,
        count,
    })
}

/// That a connection over these requests ends so and writes these answers, whatever the pieces.
fn gives(
    rt: &impl Abort,
    alloc: Global,
    requests: &[&str],
    want: Result<(), ConnectionFault>,
    answers: &[&str],
) -> Result<(), Fail> {
    let bytes = requests.concat(alloc)?;
    let text = answers.concat(alloc)?;
    for piece in [1, 2, 31, 4_096] {
        let outcome = connect(alloc, &bytes, piece, 0, 0)?;
        assert_eq!(rt; outcome.ended, want);
        assert_eq!(rt; outcome.text.as_str(), text.as_str());
    }
    Ok(())
}

/// Requests that are answered one behind another, whole and byte by byte.
#[test]
fn requests_are_answered_in_their_order(rt: HostRuntime) -> Result<(), Fail> {
    let alloc = rt.alloc();
    let read = answer(alloc, "200 OK", "", NOTHING)?;
    let done = answer(alloc, "200 OK", "", FIVE)?;
    let refused = answer(alloc, "405 Method Not Allowed", ALLOW, "")?;
    let conflict = answer(alloc, "409 Conflict", "", "{\"answer\":\"conflict 2.1\"}")?;
    let unsettled = answer(
        alloc,
        "503 Service Unavailable",
        "",
        "{\"answer\":\"unsettled crashed\"}",
    )?;
    let nowhere = answer(alloc, "404 Not Found", "", "")?;
    let broken = answer(alloc, "422 Unprocessable Content", "", "")?;
    assert_eq!(rt; NOTHING.len(), 34);
    assert_eq!(rt; FIVE.len(), 51);
    gives(&rt, alloc, &[], Ok(()), &[])?;
    gives(&rt, alloc, &[GET], Ok(()), &[&read])?;
    gives(&rt, alloc, &[GET, POST], Ok(()), &[&read, &done])?;
    gives(
        &rt,
        alloc,
        &[GET, PUT, POST],
        Ok(()),
        &[&read, &refused, &done],
    )?;
    gives(
        &rt,
        alloc,
        &[GET, CONFLICT, UNSETTLED],
        Ok(()),
        &[&read, &conflict, &unsettled],
    )?;
    let elsewhere = "GET /s HTTP/1.1\r\nHost: h\r\n\r\n";
    let no_program = "POST /r/a HTTP/1.1\r\nHost: h\r\nContent-Length: 2\r\n\r\n[]";
    gives(
        &rt,
        alloc,
        &[GET, elsewhere, no_program, POST],
        Ok(()),
        &[&read, &nowhere, &broken, &done],
    )
}

/// Answers behind which the connection closes, and nothing more is read or asked for.
#[test]
fn a_connection_closes_behind_some_answers(rt: HostRuntime) -> Result<(), Fail> {
    let alloc = rt.alloc();
    for (request, code) in [
        (
            "POST /r/a HTTP/1.1\r\nHost: h\r\n\r\n",
            "411 Length Required",
        ),
        ("GET /r/a HTTP/1.1\r\n\r\n", "400 Bad Request"),
        ("no head\r\n", "400 Bad Request"),
        (
            "POST /r/a HTTP/1.1\r\nHost: h\r\nContent-Length: 65537\r\n\r\n",
            "413 Content Too Large",
        ),
        (
            "GET /r/a HTTP/1.1\r\nHost: h\r\nTransfer-Encoding: chunked\r\n\r\n",
            "501 Not Implemented",
        ),
    ] {
        let refused = answer(alloc, code, CLOSE, "")?;
        gives(&rt, alloc, &[request, GET], Ok(()), &[&refused])?;
    }
    let read = answer(alloc, "200 OK", "", NOTHING)?;
    let last = answer(alloc, "200 OK", CLOSE, NOTHING)?;
    let second = answer(alloc, "200 OK", CLOSE, FIVE)?;
    let old = "GET /r/a HTTP/1.0\r\n\r\n";
    let closing = "GET /r/a HTTP/1.1\r\nHost: h\r\nConnection: close\r\n\r\n";
    gives(&rt, alloc, &[old, GET], Ok(()), &[&last])?;
    gives(&rt, alloc, &[closing, GET], Ok(()), &[&last])?;
    gives(&rt, alloc, &[GET, old, GET], Ok(()), &[&read, &second])
}

/// Inputs that end within a request, after so many bytes.
#[test]
fn an_input_is_cut_within_a_request(rt: HostRuntime) -> Result<(), Fail> {
    let alloc = rt.alloc();
    let read = answer(alloc, "200 OK", "", NOTHING)?;
    for count in 1..POST.len() {
        let at = GET.len() as u64 + count as u64;
        let part = POST.get(..count).ok_or("no part")?;
        gives(
            &rt,
            alloc,
            &[GET, part],
            Err(ConnectionFault::Cut { at }),
            &[&read],
        )?;
    }
    Ok(())
}

/// A source or a sink that fails: all whole requests before are answered, or a front of the answers is written.
#[test]
fn a_fault_leaves_the_answers_before(rt: HostRuntime) -> Result<(), Fail> {
    let alloc = rt.alloc();
    let read = answer(alloc, "200 OK", "", NOTHING)?;
    let done = answer(alloc, "200 OK", "", FIVE)?;
    let bytes = [GET, POST, GET].concat(alloc)?;
    // the 31st call of the source would give the first byte of the second request
    let outcome = connect(alloc, &bytes, 1, GET.len() as u64 + 1, 0)?;
    assert_eq!(rt; outcome.ended, Err(ConnectionFault::ReadFault));
    assert_eq!(rt; outcome.text.as_str(), read.as_str());
    assert_eq!(rt;
        outcome.notes.as_str(),
        "[97][97, 108, 119, 97, 121, 115, 32, 107, 101, 101, 112];"
    );
    // the sink takes 50 bytes at once, so that its fourth call begins the second answer
    let outcome = connect(alloc, &bytes, 4_096, 0, 5)?;
    assert_eq!(rt; outcome.ended, Err(ConnectionFault::WriteFault));
    let both = [read.as_str(), done.as_str()].concat(alloc)?;
    assert!(rt; both.starts_with(outcome.text.as_str()));
    assert_eq!(rt; outcome.text.len(), read.len() + 50);
    assert_eq!(rt; outcome.count, 2);
    Ok(())
}
