//! The members of an object that is made, with the text of a token or of a digest more.
ghost use Rattle.std.specs.Prelude.{◌≡◌, IfOk};
ghost use Rattle.hex.specs.Hex.{encode_lower};
ghost use Rattle.serde_json.specs.Data.{put, string};
ghost use Rattle.serde_json.specs.View.{members_view};
ghost use Rattle.cv_base.specs.Digest.{IsDigest};
ghost use Rattle.cv_base.specs.Token.{token_text};
ghost use Rattle.cv_messages.specs.Spelling.{IsToken};

use cv_base::{NoMemory, Token, digest_text};
use cv_json::{Members, with_text};
use std::alloc::Global;

/// The members with a token's text more.
pub fn with_token(
    alloc: Global,
    members: Members,
    name: &str,
    token: Token,
) -> Result<Members, NoMemory>
    ensures json { IfOk result (λ more. members_view more.entries ≡ put name.now (string (token_text token)) (members_view members.entries)) }
    ensures token { IsToken token }
{
    let text = token.text(alloc)?;
    with_text(alloc, members, name, text.as_str())
}

/// The members with a digest's digits more.
pub fn with_digest(
    alloc: Global,
    members: Members,
    name: &str,
    digest: &[u8; 20],
) -> Result<Members, NoMemory>
    ensures json { IfOk result (λ more. members_view more.entries ≡ put name.now (string (encode_lower digest.now)) (members_view members.entries)) }
    ensures digest { IsDigest digest.now }
{
    let text = digest_text(alloc, digest)?;
    with_text(alloc, members, name, text.as_str())
}
