//! The URL under which a repository is served.
ghost use Rattle.std.specs.Prelude.{◌≡◌, ◌≢◌, ◌≤◌, ◌++◌, ℕ, List, Some, decimal, IfOk, IfSome, MatchOption};
ghost use Rattle.std.specs.List.{list_all};
ghost use Rattle.std.specs.Str.Iter.{LacksByte};
ghost use Rattle.cv_client.specs.Url.{is_host_byte, is_host, IsAuthority, url_text};

use cv_base::{Name, NoMemory, Text, read_decimal};
use cv_ports::HOST_LIMIT;
use std::alloc::Global;

/// The port of HTTP (RFC 9110, section 4.2.1).
const HTTP_PORT: u16 = 80;

/// Where a repository is served (RFC 3986): `http://<host>[:<port>]/cvmfs/<repository>`, and no other text. The scheme is in
/// lower case, the port a decimal from 1 to 65535 without a leading zero, and nothing stands behind the repository's name.
#[derive(Debug, Drop)]
pub struct Url {
    /// The host, as it is dialled: 1 to `HOST_LIMIT` letters, digits, dots and dashes of ASCII.
    pub host: Text,
    /// The port, 80 where none stands.
    pub port: u16,
    /// The host, and the port where one stands, as they stand in the URL.
    pub authority: Text,
    /// The repository's name.
    pub repository: Name,
}

/// Whether a byte may stand in a host.
fn is_host_byte(byte: u8) -> bool
    ensures { result ≡ is_host_byte byte }
{
    byte.is_ascii_alphanumeric() || byte == b'.' || byte == b'-'
}

/// Whether each byte may stand in a host.
fn are_host_bytes(bytes: &[u8]) -> bool
    ensures { result ≡ list_all is_host_byte bytes.now }
{
    bytes.iter().all(|byte| is_host_byte(*byte))
}

/// Whether a text is a host.
fn is_host(text: &str) -> bool
    ensures { result ≡ is_host text.now }
{
    let bytes = text.as_bytes();
    1 <= bytes.len() && bytes.len() <= HOST_LIMIT && are_host_bytes(bytes)
}

/// The port that a text is: the decimal of 1 to 65535.
fn read_port(text: &str) -> Option<u16>
    ensures value { IfSome result (λ port. (1 ≤ port) × (text.now ≡ decimal port)) }
    ensures found { (port : ℕ) → 1 ≤ port → port ≤ 65535 → text.now ≡ decimal port → result ≡ Some port }
{
    let number = read_decimal(text.as_bytes())?;
    if 1 <= number && number <= 65535 {
        Some(number as u16)
    } else {
        None
    }
}

/// The host and the port of an authority.
fn read_authority(text: &str) -> Option<(&str, u16)>
    ensures { MatchOption result
        ((host : List ℕ) (port : ℕ) → IsAuthority text.now host port → ⊥)
        (λ parts. IsAuthority text.now parts.0.now parts.1) }
{
    let (host, port) = match text.split_once(':') {
        Some((host, port)) => (host, read_port(port)?),
        None => (text, HTTP_PORT),
    };
    if !is_host(host) {
        return None;
    }
    Some((host, port))
}

/// What stands behind this front of a text.
fn behind<'a>(text: &'a str, front: &str) -> Option<&'a str>
    ensures { MatchOption result
        ((rest : List ℕ) → text.now ≢ front.now ++ rest)
        (λ rest. text.now ≡ front.now ++ rest.now) }
{
    text.strip_prefix(front)
}

/// The authority and the repository's text of a URL.
fn split_url(text: &str) -> Option<(&str, &str)>
    ensures { MatchOption result
        ((authority repository : List ℕ) → LacksByte 47 authority → text.now ≢ url_text authority repository)
        (λ parts. LacksByte 47 parts.0.now × (text.now ≡ url_text parts.0.now parts.1.now)) }
{
    let rest = behind(text, "http://")?;
    let (authority, path) = rest.split_once('/')?;
    let repository = behind(path, "cvmfs/")?;
    Some((authority, repository))
}

impl Url {
    ghost use Rattle.cv_client.specs.Url.{IsUrl};

    /// The URL that this text is. None where it isn't one.
    pub fn read(alloc: Global, text: &str) -> Result<Option<Url>, NoMemory>
        ensures { IfOk result
            (λ found. MatchOption found ((u : _) → IsUrl text.now u → ⊥) (IsUrl text.now)) }
    {
        let Some((authority, repository)) = split_url(text) else {
            return Ok(None);
        };
        let Some((host, port)) = read_authority(authority) else {
            return Ok(None);
        };
        let Some(repository) = Name::read(alloc, repository)? else {
            return Ok(None);
        };
        Ok(Some(Url {
            host: Text::from_str(alloc, host)?,
            port,
            authority: Text::from_str(alloc, authority)?,
            repository,
        }))
    }
}
