//! The name of a host.
ghost use Rattle.std.specs.Prelude.{◌≡◌, ◌≤◌, Some, None, length, if◌then◌else◌, nat_le};
ghost use Rattle.cv_ports.specs.declared.host_name.TheConstants.{HOST_LIMIT};

use std::marker::Model;

/// The most bytes of a host's name (RFC 1035, section 2.3.4: 255 on the wire, of which two are no part of the text).
pub const HOST_LIMIT: usize = 253;

/// The name of a host or its IP address, as it was dialled. It takes no memory of its own.
#[derive(Drop)]
pub struct HostName {
    bytes: [u8; HOST_LIMIT],
    len: usize,
}

impl Model for HostName {
    ghost use Rattle.std.specs.Prelude.{◌≤◌, List, ℕ, take};
    ghost use Rattle.cv_ports.specs.declared.host_name.TheConstants.{HOST_LIMIT};

    ghost Value = { List ℕ };

    ghost view = { λ h. take h.len h.bytes };

    ghost invariant = { λ h. h.len ≤ HOST_LIMIT };
}

impl HostName {
    /// A name of these bytes, or nothing where they are more than `HOST_LIMIT`.
    pub fn new(text: &str) -> Option<HostName>
        ensures { result ≡ (if nat_le (length text.now) HOST_LIMIT then Some text.now else None) }
    {
        let text = text.as_bytes();
        if text.len() > HOST_LIMIT {
            return None;
        }
        let mut bytes = [0; HOST_LIMIT];
        bytes[..text.len()].copy_from_slice(text);
        Some(HostName {
            bytes,
            len: text.len(),
        })
    }

    /// The same name.
    pub(crate) fn copy(&self) -> HostName
        ensures { result ≡ self.now }
    {
        HostName {
            bytes: self.bytes,
            len: self.len,
        }
    }

    /// Its bytes.
    pub fn as_bytes(&self) -> &[u8]
        ensures { result.now ≡ self.now }
    {
        &self.bytes[..self.len]
    }
}
