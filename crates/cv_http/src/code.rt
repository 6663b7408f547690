//! Status codes of replies.
ghost use Rattle.std.specs.Prelude.{◌≡◌};
ghost use Rattle.cv_http.specs.Replies.{status_of, text_of};

/// The code of a reply that has what was asked for (RFC 9110, section 15.3.1).
pub const OK: u16 = 200;

/// The code of a reply that there is none (RFC 9110, section 15.5.5).
pub const NOT_FOUND: u16 = 404;

/// The status code of a reply (RFC 9110, section 15).
#[derive(Clone, Copy, Debug, PartialEq, Eq)]
pub enum Code {
    Success,
    BadRequest,
    NotFound,
    LengthRequired,
    ContentTooLarge,
    /// Request Header Fields Too Large (RFC 6585, section 5).
    FieldsTooLarge,
    ServerError,
    NotImplemented,
}

impl Code {
    /// The three digits and the phrase, as in the status line.
    pub fn status(self) -> &'static str
        ensures { result.now ≡ status_of self }
    {
        match self {
            Code::Success => "200 OK",
            Code::BadRequest => "400 Bad Request",
            Code::NotFound => "404 Not Found",
            Code::LengthRequired => "411 Length Required",
            Code::ContentTooLarge => "413 Content Too Large",
            Code::FieldsTooLarge => "431 Request Header Fields Too Large",
            Code::ServerError => "500 Internal Server Error",
            Code::NotImplemented => "501 Not Implemented",
        }
    }

    /// The body of a reply that says no more than the code: the phrase and a newline.
    pub fn text(self) -> &'static str
        ensures { result.now ≡ text_of self }
    {
        match self {
            Code::Success => "OK\n",
            Code::BadRequest => "Bad Request\n",
            Code::NotFound => "Not Found\n",
            Code::LengthRequired => "Length Required\n",
            Code::ContentTooLarge => "Content Too Large\n",
            Code::FieldsTooLarge => "Request Header Fields Too Large\n",
            Code::ServerError => "Internal Server Error\n",
            Code::NotImplemented => "Not Implemented\n",
        }
    }
}
