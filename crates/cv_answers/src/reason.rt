//! Reasons that are all that a refusal says.
ghost use Rattle.std.specs.Prelude.{◌≡◌};

/// All reasons.
const REASONS: [Reason; 19] = [
    Reason::BadPath,
    Reason::TooManyLeases,
    Reason::NoParent,
    Reason::InvalidToken,
    Reason::WrongKey,
    Reason::JournalFull,
    Reason::NoMemory,
    Reason::NoAuthorization,
    Reason::BadAuthorization,
    Reason::UnknownKey,
    Reason::WrongMac,
    Reason::NotJson,
    Reason::UnknownRepository,
    Reason::BadMessageSize,
    Reason::BadDigest,
    Reason::BadPack,
    Reason::BadHeaderSize,
    Reason::StoreFailed,
    Reason::RevisionsFull,
];

/// Why a request is refused, where a refusal says no more.
#[derive(Clone, Copy, Debug, PartialEq, Eq)]
pub enum Reason {
    /// What follows the repository's name is no path, or a path that no lease is granted on.
    BadPath,
    /// As many leases are live as may be.
    TooManyLeases,
    /// The parent of the path is no directory.
    NoParent,
    /// No live lease has the token.
    InvalidToken,
    /// The lease was granted to another key.
    WrongKey,
    /// The gateway's journal is full.
    JournalFull,
    /// There was no memory.
    NoMemory,
    /// The request has no Authorization header.
    NoAuthorization,
    /// The Authorization header has another form.
    BadAuthorization,
    /// No key has the id of the Authorization header.
    UnknownKey,
    /// The Authorization header is not that of its key for this request.
    WrongMac,
    /// The message is no JSON object.
    NotJson,
    /// The path is not of this repository.
    UnknownRepository,
    /// Message-Size is lacking, is no decimal, or is too large.
    BadMessageSize,
    /// The pack's header hasn't the digest that the message says.
    BadDigest,
    /// The pack has a fault.
    BadPack,
    /// The pack's header has another length than the message says.
    BadHeaderSize,
    /// The gateway's store failed.
    StoreFailed,
    /// There are as many revisions as may be.
    RevisionsFull,
}

impl Reason {
    ghost use Rattle.cv_answers.specs.Refusal.{reason_text, reason_of};

    /// The reason whose text a text is.
    pub(crate) fn read(text: &str) -> Option<Reason>
        ensures { result ≡ reason_of text.now }
    {
        REASONS
            .iter()
            .copied()
            .find(|reason| reason.as_str() == text)
    }

    /// The reason's text.
    pub fn as_str(self) -> &'static str
        ensures { result.now ≡ reason_text self }
    {
        match self {
            Reason::BadPath => "bad_path",
            Reason::TooManyLeases => "too_many_leases",
            Reason::NoParent => "no_parent",
            Reason::InvalidToken => "invalid_token",
            Reason::WrongKey => "wrong_key",
            Reason::JournalFull => "journal_full",
            Reason::NoMemory => "no_memory",
            Reason::NoAuthorization => "no_authorization",
            Reason::BadAuthorization => "bad_authorization",
            Reason::UnknownKey => "unknown_key",
            Reason::WrongMac => "wrong_mac",
            Reason::NotJson => "not_json",
            Reason::UnknownRepository => "unknown_repository",
            Reason::BadMessageSize => "bad_message_size",
            Reason::BadDigest => "bad_digest",
            Reason::BadPack => "bad_pack",
            Reason::BadHeaderSize => "bad_header_size",
            Reason::StoreFailed => "store_failed",
            Reason::RevisionsFull => "revisions_full",
        }
    }
}
