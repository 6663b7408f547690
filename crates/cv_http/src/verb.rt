//! Methods of requests that are written.
ghost use Rattle.std.specs.Prelude.{◌≡◌};
ghost use Rattle.cv_http.specs.Requests.{verb_text};

/// The method of a request that is written (RFC 9110, section 9).
#[derive(Clone, Copy, Debug, PartialEq, Eq)]
pub enum Verb {
    Get,
    Post,
    Delete,
}

impl Verb {
    /// The name of the method, as in the request line.
    pub fn text(self) -> &'static str
        ensures { result.now ≡ verb_text self }
    {
        match self {
            Verb::Get => "GET",
            Verb::Post => "POST",
            Verb::Delete => "DELETE",
        }
    }
}
