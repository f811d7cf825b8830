//! The codes of answers.

ghost use Rattle.std.specs.Prelude.{◌≡◌};
ghost use Rattle.cas_http.specs.Codes.{status_text, closes};

/// What a request comes to.
#[derive(Clone, Copy, Debug, PartialEq, Eq)]
pub enum Code {
    /// 200: the change stands.
    Done,
    /// 400: no head can come of the bytes, or the head has no one Host or no one length.
    BadRequest,
    /// 404: the target is not `/r/` and a key.
    NotFound,
    /// 405: the method is none of GET, POST and DELETE.
    MethodNotAllowed,
    /// 409: another proposer was ahead, and the change was never proposed.
    Conflict,
    /// 411: a POST without a Content-Length.
    LengthRequired,
    /// 413: the Content-Length is above 65,536.
    ContentTooLarge,
    /// 422: the body of a POST is no program.
    Unprocessable,
    /// 431: 16,384 bytes hold no whole head.
    HeadTooLarge,
    /// 501: the head has a Transfer-Encoding.
    NotImplemented,
    /// 503: the change was not done, or is not known to be.
    Unavailable,
}

impl Code {
    /// The number and the phrase, as the first line of an answer has them.
    pub fn status(self) -> &'static str
        ensures { result.now ≡ status_text self }
    {
        match self {
            Code::Done => "200 OK",
            Code::BadRequest => "400 Bad Request",
            Code::NotFound => "404 Not Found",
            Code::MethodNotAllowed => "405 Method Not Allowed",
            Code::Conflict => "409 Conflict",
            Code::LengthRequired => "411 Length Required",
            Code::ContentTooLarge => "413 Content Too Large",
            Code::Unprocessable => "422 Unprocessable Content",
            Code::HeadTooLarge => "431 Request Header Fields Too Large",
            Code::NotImplemented => "501 Not Implemented",
            Code::Unavailable => "503 Service Unavailable",
        }
    }

    /// Whether the connection closes behind every answer of this code.
    pub fn closes(self) -> bool
        ensures { result ≡ closes self }
    {
        matches!(
            self,
            Code::BadRequest
                | Code::LengthRequired
                | Code::ContentTooLarge
                | Code::HeadTooLarge
                | Code::NotImplemented
        )
    }
}
