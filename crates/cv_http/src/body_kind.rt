//! Types of content.
ghost use Rattle.std.specs.Prelude.{◌≡◌};
ghost use Rattle.cv_http.specs.Replies.{type_of};

/// What the body of a reply is.
#[derive(Clone, Copy, Debug, PartialEq, Eq)]
pub enum BodyKind {
    /// An answer of the gateway's interface.
    Json,
    /// A manifest or an object.
    Octets,
    /// A text for people.
    Text,
}

impl BodyKind {
    /// The value of Content-Type.
    pub fn media_type(self) -> &'static str
        ensures { result.now ≡ type_of self }
    {
        match self {
            BodyKind::Json => "application/json",
            BodyKind::Octets => "application/octet-stream",
            BodyKind::Text => "text/plain",
        }
    }
}
