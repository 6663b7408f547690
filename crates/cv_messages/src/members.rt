//! Members of objects, each judged for being there, for its type and for its value.
ghost use Rattle.std.specs.Prelude.{◌≡◌, Ok, Err, MatchResult};
ghost use Rattle.serde_json.specs.Find.{get};
ghost use Rattle.serde_json.specs.View.{view};
ghost use Rattle.cv_messages.specs.Member.{text_member, number_member, size_member, token_member, digest_member};
ghost use Rattle.cv_messages.specs.Spelling.{decimal_of, digest_of};

use crate::member::Member;
use crate::message_fault::MessageFault;
use cv_base::{Token, read_decimal, read_digest};
use serde_json::Value;

/// The text of a member.
pub fn text_member<'a>(value: &'a Value, key: &str, name: Member) -> Result<&'a str, MessageFault>
    ensures { MatchResult result (λ text. text_member name (get key.now (view value.now)) ≡ Ok text.now)
        (λ fault. text_member name (get key.now (view value.now)) ≡ Err fault) }
{
    let Some(member) = value.get(key) else {
        return Err(MessageFault::Missing(name));
    };
    match member.as_str() {
        Some(text) => Ok(text),
        None => Err(MessageFault::WrongType(name)),
    }
}

/// The whole number that the value of a member is.
fn whole_number(member: &Value, name: Member) -> Result<u64, MessageFault>
    ensures { result ≡ number_member name (Some (view member.now)) }
{
    let Some(number) = member.as_number() else {
        return Err(MessageFault::WrongType(name));
    };
    number.as_u64().ok_or(MessageFault::BadValue(name))
}

/// The whole number of a member.
pub fn number_member(value: &Value, key: &str, name: Member) -> Result<u64, MessageFault>
    ensures { result ≡ number_member name (get key.now (view value.now)) }
{
    let Some(member) = value.get(key) else {
        return Err(MessageFault::Missing(name));
    };
    whole_number(member, name)
}

/// The number that a text is the decimal of.
pub fn decimal_in(text: &str) -> Option<u64>
    ensures { result ≡ decimal_of text.now }
{
    match read_decimal(text.as_bytes()) {
        Some(number) => Some(number),
        None => None,
    }
}

/// The whole number of a member, which may be the text of a decimal.
pub fn size_member(value: &Value, key: &str, name: Member) -> Result<u64, MessageFault>
    ensures { result ≡ size_member name (get key.now (view value.now)) }
{
    let Some(member) = value.get(key) else {
        return Err(MessageFault::Missing(name));
    };
    if let Some(text) = member.as_str() {
        return decimal_in(text).ok_or(MessageFault::BadValue(name));
    }
    whole_number(member, name)
}

/// The token of a member.
pub fn token_member(value: &Value, key: &str, name: Member) -> Result<Token, MessageFault>
    ensures { result ≡ token_member name (get key.now (view value.now)) }
{
    let text = text_member(value, key, name)?;
    match Token::read(text) {
        Some(token) => {
            let Token { epoch, number } = token;
            Ok(Token { epoch, number })
        }
        None => Err(MessageFault::BadValue(name)),
    }
}

/// The digest that bytes are the digits of.
pub(crate) fn digest_in(digits: &[u8]) -> Option<[u8; 20]>
    ensures { result ≡ digest_of digits.now }
{
    match read_digest(digits) {
        Some(hash) => Some(hash),
        None => None,
    }
}

/// The digest of a member.
pub fn digest_member(value: &Value, key: &str, name: Member) -> Result<[u8; 20], MessageFault>
    ensures { result ≡ digest_member name (get key.now (view value.now)) }
{
    let text = text_member(value, key, name)?;
    digest_in(text.as_bytes()).ok_or(MessageFault::BadValue(name))
}
