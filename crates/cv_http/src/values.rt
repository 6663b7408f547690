//! What the values of header fields say.
ghost use Rattle.std.specs.Prelude.{◌≡◌, ◌+◌, ◌^◌, ◌<◌, Option, map, IfOk, IfSome, position};
ghost use Rattle.std.specs.List.{list_all, list_any};
ghost use Rattle.std.specs.Str.{str_eq_ignore_ascii_case};
ghost use Rattle.std.specs.Char.{is_ascii_digit};
ghost use Rattle.cv_http.specs.Fields.{number_of, length_of, text_or_empty, text_value, is_comma, has_token, is_token};

use cv_base::{NoMemory, Text};
use std::alloc::Global;

fn is_decimal(text: &[u8]) -> bool
    ensures { result ≡ list_all is_ascii_digit text.now }
{
    text.iter().all(|byte| byte.is_ascii_digit())
}

/// The number of a decimal text. `None` where it isn't one, or doesn't fit.
fn number_of(text: &[u8]) -> Option<u64>
    ensures { result ≡ number_of text.now }
{
    if !is_decimal(text) {
        return None;
    }
    match str::from_utf8(text) {
        Ok(digits) => digits.parse().ok(),
        Err(_) => unreachable!(),
    }
}

/// The length that the values of Content-Length state. `None` where there is none, or more than one, or no number.
pub fn length_of(values: &[&[u8]]) -> Option<u64>
    ensures { result ≡ length_of (map (λ value. value.now) values.now) }
{
    match values {
        [value] => number_of(value),
        _ => None,
    }
}

fn text_or_empty(value: &[u8]) -> &str
    ensures { result.now ≡ text_or_empty value.now }
{
    match str::from_utf8(value) {
        Ok(text) => text,
        Err(_) => "",
    }
}

/// The text that the values of a field give. Empty where there are two, or one that isn't UTF-8.
pub fn text_value(alloc: Global, values: &[&[u8]]) -> Result<Option<Text>, NoMemory>
    ensures { IfOk result (λ text. text ≡ text_value (map (λ value. value.now) values.now)) }
{
    match values {
        [] => Ok(None),
        [value] => Ok(Some(Text::from_str(alloc, text_or_empty(value))?)),
        _ => Ok(Some(Text::from_str(alloc, "")?)),
    }
}

/// The element of a comma list is this token, without regard to case.
fn is_token(element: &[u8], token: &[u8]) -> bool
    ensures { result ≡ is_token token.now element.now }
{
    element.trim_ascii().eq_ignore_ascii_case(token)
}

/// Where the first comma is.
fn comma_in(text: &[u8]) -> Option<usize>
    ensures first { result ≡ position is_comma text.now }
    ensures fits { IfSome result (λ place. place + 1 < 2 ^ 64) }
{
    text.iter().position(|byte| *byte == b',')
}

/// A comma list (RFC 9110, section 5.6.1) has this token, without regard to case.
fn has_token(value: &[u8], token: &[u8]) -> bool
    ensures { result ≡ has_token token.now value.now }
{
    let mut rest = value;
    'elements: while let Some(comma) = comma_in(rest) {
        if is_token(&rest[..comma], token) {
            return true;
        }
        rest = &rest[comma + 1..];
    }
    is_token(rest, token)
}

/// One of the values is this text, without regard to case.
pub fn any_is(values: &[&[u8]], text: &[u8]) -> bool
    ensures { result ≡ list_any (λ value. str_eq_ignore_ascii_case value.now text.now) values.now }
{
    values.iter().any(|value| value.eq_ignore_ascii_case(text))
}

/// One of the values is a comma list that has this token, without regard to case.
pub fn any_has_token(values: &[&[u8]], token: &[u8]) -> bool
    ensures { result ≡ list_any (λ value. has_token token.now value.now) values.now }
{
    values.iter().any(|value| has_token(value, token))
}
