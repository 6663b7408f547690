//! The members that faults name.
ghost use Rattle.std.specs.Prelude.{◌≡◌};

/// The members that have a name of their own.
const NAMED: [Member; 9] = [
    Member::Path,
    Member::OldRoot,
    Member::NewRoot,
    Member::Tag,
    Member::SessionToken,
    Member::Digest,
    Member::HeaderSize,
    Member::Status,
    Member::Reason,
];

/// A member of a message or an answer, as faults name it.
#[derive(Clone, Copy, Debug, PartialEq, Eq)]
pub enum Member {
    /// `path`
    Path,
    /// `old_root_hash`
    OldRoot,
    /// `new_root_hash`
    NewRoot,
    /// `tag_name`
    Tag,
    /// `session_token`
    SessionToken,
    /// `payload_digest`
    Digest,
    /// `header_size`
    HeaderSize,
    /// `status`
    Status,
    /// `reason`
    Reason,
    /// Any other member.
    Other,
}

impl Member {
    ghost use Rattle.cv_messages.specs.MemberName.{member_name, member_of};

    /// The member whose name a text is. None for any other text, also for `other`.
    pub fn read(text: &str) -> Option<Member>
        ensures { result ≡ member_of text.now }
    {
        NAMED.iter().copied().find(|member| member.as_str() == text)
    }

    /// The member's name in JSON.
    pub fn as_str(self) -> &'static str
        ensures { result.now ≡ member_name self }
    {
        match self {
            Member::Path => "path",
            Member::OldRoot => "old_root_hash",
            Member::NewRoot => "new_root_hash",
            Member::Tag => "tag_name",
            Member::SessionToken => "session_token",
            Member::Digest => "payload_digest",
            Member::HeaderSize => "header_size",
            Member::Status => "status",
            Member::Reason => "reason",
            Member::Other => "other",
        }
    }
}
