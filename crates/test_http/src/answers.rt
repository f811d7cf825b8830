//! Answers, byte by byte.

use cas_ballot::Ballot;
use cas_change::{Body, State, Text, Took};
use cas_http::{Code, code_of, print_answer, print_body, print_reply};
use cas_record::{Answer, Cause};
use std::alloc::Global;
use std::process::Abort;
use std::test::Fail;

/// The ballot of this counter that proposer 1 draws.
fn ballot(counter: u64) -> Ballot {
    Ballot {
        counter,
        proposer: 1,
    }
}

/// A change that left this state at ballot 2.1.
fn done(state: State, took: Took) -> Answer {
    Answer::Done {
        state,
        took,
        ballot: ballot(2),
    }
}

/// The state that holds this text at version 3.
fn text(alloc: Global, bytes: &[u8]) -> Result<State, Fail> {
    Ok(State::Held {
        version: 3,
        body: Body::Text(Text::read(alloc, bytes)?),
    })
}

/// That an answer has this code and body.
fn answers(
    rt: &impl Abort,
    alloc: Global,
    answer: Answer,
    code: Code,
    body: &str,
) -> Result<(), Fail> {
    assert_eq!(rt; code_of(&answer), code);
    assert_eq!(rt; print_body(alloc, &answer)?.as_str(), body);
    Ok(())
}

#[test]
fn the_state_that_is_left_is_told(rt: HostRuntime) -> Result<(), Fail> {
    let alloc = rt.alloc();
    let number = State::Held {
        version: 0,
        body: Body::Number(-5),
    };
    for (answer, body) in [
        (
            done(State::Empty, Took::Clause(0)),
            r#"{"at":"2.1","state":null,"took":0}"#,
        ),
        (
            done(number, Took::Clause(7)),
            r#"{"at":"2.1","state":{"num":-5,"version":0},"took":7}"#,
        ),
        (
            done(text(alloc, b"a\"\n\xe2\x82\xac")?, Took::Nothing),
            "{\"at\":\"2.1\",\"state\":{\"text\":\"a\\\"\\n\u{20ac}\",\"version\":3},\"took\":\"none\"}",
        ),
        (
            done(text(alloc, b"\xff\x0a")?, Took::Unfit(0)),
            r#"{"at":"2.1","state":{"hex":"ff0a","version":3},"took":"unfit"}"#,
        ),
    ] {
        answers(&rt, alloc, answer, Code::Done, body)?;
    }
    Ok(())
}

#[test]
fn another_answer_is_told_by_its_text(rt: HostRuntime) -> Result<(), Fail> {
    for (answer, code, body) in [
        (
            Answer::Conflict { met: ballot(9) },
            Code::Conflict,
            r#"{"answer":"conflict 9.1"}"#,
        ),
        (
            Answer::Unsettled {
                why: Cause::Met(ballot(9)),
            },
            Code::Unavailable,
            r#"{"answer":"unsettled met 9.1"}"#,
        ),
        (
            Answer::NoMemory { proposed: true },
            Code::Unavailable,
            r#"{"answer":"no memory proposed"}"#,
        ),
    ] {
        answers(&rt, rt.alloc(), answer, code, body)?;
    }
    Ok(())
}

/// The answers to a change that adds 5 to an empty register, and to one that met a greater ballot.
#[test]
fn a_reply_is_written_whole(rt: HostRuntime) -> Result<(), Fail> {
    let five = State::Held {
        version: 0,
        body: Body::Number(5),
    };
    for (answer, last, want) in [
        (
            done(five, Took::Clause(0)),
            false,
            "HTTP/1.1 200 OK\r\nContent-Type: application/json\r\nContent-Length: 51\r\n\r\n{\"at\":\"2.1\",\"state\":{\"num\":5,\"version\":0},\"took\":0}",
        ),
        (
            Answer::Conflict { met: ballot(9) },
            true,
            "HTTP/1.1 409 Conflict\r\nContent-Type: application/json\r\nContent-Length: 25\r\nConnection: close\r\n\r\n{\"answer\":\"conflict 9.1\"}",
        ),
    ] {
        let reply = print_reply(rt.alloc(), &answer, last)?;
        assert_eq!(rt; reply.as_slice(), want.as_bytes());
    }
    Ok(())
}

/// Each answer, whole.
#[test]
fn an_answer_is_its_head_and_its_body(rt: HostRuntime) -> Result<(), Fail> {
    for (code, body, last, want) in [
        (
            Code::Done,
            r#"{"at":"1.1","state":null,"took":0}"#,
            false,
            "HTTP/1.1 200 OK\r\nContent-Type: application/json\r\nContent-Length: 34\r\n\r\n{\"at\":\"1.1\",\"state\":null,\"took\":0}",
        ),
        (
            Code::Done,
            r#"{"at":"2.1","state":{"num":5,"version":0},"took":0}"#,
            true,
            "HTTP/1.1 200 OK\r\nContent-Type: application/json\r\nContent-Length: 51\r\nConnection: close\r\n\r\n{\"at\":\"2.1\",\"state\":{\"num\":5,\"version\":0},\"took\":0}",
        ),
        (
            Code::Done,
            "\"\u{20ac}\"",
            false,
            "HTTP/1.1 200 OK\r\nContent-Type: application/json\r\nContent-Length: 5\r\n\r\n\"\u{20ac}\"",
        ),
        (
            Code::MethodNotAllowed,
            "",
            false,
            "HTTP/1.1 405 Method Not Allowed\r\nContent-Type: application/json\r\nContent-Length: 0\r\nAllow: GET, POST, DELETE\r\n\r\n",
        ),
        (
            Code::LengthRequired,
            "",
            false,
            "HTTP/1.1 411 Length Required\r\nContent-Type: application/json\r\nContent-Length: 0\r\nConnection: close\r\n\r\n",
        ),
        (
            Code::BadRequest,
            "",
            false,
            "HTTP/1.1 400 Bad Request\r\nContent-Type: application/json\r\nContent-Length: 0\r\nConnection: close\r\n\r\n",
        ),
        (
            Code::Unprocessable,
            "",
            false,
            "HTTP/1.1 422 Unprocessable Content\r\nContent-Type: application/json\r\nContent-Length: 0\r\n\r\n",
        ),
    ] {
        let answer = print_answer(rt.alloc(), code, body, last)?;
        assert_eq!(rt; answer.as_slice(), want.as_bytes(), "{code:?}");
    }
    Ok(())
}
