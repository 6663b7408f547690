//! The table of a gateway's keys.
ghost use Rattle.std.specs.Prelude.{◌≡◌, ◌<◌, List, true, Ok, Some, None, length, slice_get, option_map, IfOk, IsSomeAnd, string_bytes};
ghost use Rattle.cv_base.specs.Unless.{IsUnless};
ghost use Rattle.cv_keys.specs.Key.{is_key_id};
ghost use Rattle.cv_keys.specs.KeyInner.{place_of};
ghost use Rattle.cv_keys.specs.KeysText.{keys_of};
ghost use Rattle.cv_keys.specs.Header.{header_of, is_mac, decoded, checked, checked_parts, IsPlaceOf};
ghost use Rattle.cv_keys.specs.declared.key_fault.KeyFault.TheVariants as faults;

use crate::auth_fault::AuthFault;
use crate::key::Key;
use crate::key_fault::KeyFault;
use crate::key_no::KeyNo;
use crate::read_keys::read_keys;
use base64::DecodeAllocError;
use base64::engine::general_purpose::STANDARD;
use cv_base::{Bytes, NoMemory, digest_digits};
use cv_json::read_object;
use cv_seal::{hmac_sha1, same_bytes};
use std::alloc::Global;
use std::marker::Model;

/// The keys of a gateway: 1 to 256, in the order of the keys text, each with an id of its own.
/// Clauses see them as a list.
#[derive(Drop)]
pub struct KeyTable {
    keys: Vec<Key>,
}

impl Model for KeyTable {
    ghost use Rattle.std.specs.Prelude.{List};
    ghost use Rattle.cv_keys.specs.declared.key.Key.{Key};
    ghost use Rattle.cv_keys.specs.Key.{IsTable};

    ghost Value = { List Key };

    ghost view = { λ table. table.keys.items };

    ghost invariant = { λ table. IsTable table.keys.items };
}

impl KeyTable {
    /// The table that a keys text says: `{"keys":[{"id":"K","secret":"S"}]}` with an element for each
    /// key. Other members are passed over, and of a member that stands twice the last counts.
    pub fn read(alloc: Global, json: &[u8]) -> Result<KeyTable, KeyFault>
        ensures { IsUnless faults.NoMemory result (keys_of json.now) }
    {
        let Some(value) = read_object(alloc, json)? else {
            return Err(KeyFault::NotJson);
        };
        let keys = read_keys(alloc, &value)?;
        Ok(KeyTable { keys })
    }

    /// The number of the first key: each table has one.
    pub fn first(&self) -> KeyNo
        ensures number { result.0 ≡ 0 }
        ensures within { result.0 < length self.now }
    {
        let _ = &self.keys;
        KeyNo(0)
    }

    /// The key of this number.
    pub fn key(&self, key: KeyNo) -> &Key
        requires { key.0 < length self.now }
        ensures key { slice_get self.now key.0 ≡ Some result.now }

        // Its id is one of a key.
        ensures grammar { is_key_id result.now.id ≡ true }
    {
        &self.keys[key.0 as usize]
    }

    /// The header that the key gives a message.
    pub fn header(&self, alloc: Global, key: KeyNo, message: &[u8]) -> Result<String, NoMemory>
        requires { key.0 < length self.now }
        ensures header { IfOk result (λ text. option_map (λ found. header_of found message.now) (slice_get self.now key.0) ≡ Some (string_bytes text)) }
        ensures accepted { IfOk result (λ text. IsSomeAnd (slice_get self.now key.0) (λ found. checked self.now (Some (string_bytes text)) message.now ≡ Ok found)) }
    {
        header_of(alloc, &self.keys[key.0 as usize], message)
    }

    /// The key that gives the message this header, or the first fault.
    pub fn check(
        &self,
        alloc: Global,
        header: Option<&str>,
        message: &[u8],
    ) -> Result<KeyNo, AuthFault>
        ensures answer { IsPlaceOf self.now result (checked self.now (option_map (λ text. text.now) header.entry) message.now) }
        ensures known { IfOk result (λ key. key.0 < length self.now) }
    {
        let Some(header) = header else {
            return Err(AuthFault::NoHeader);
        };
        match header.split_once(' ') {
            Some((id, code)) => self.check_parts(alloc, id, code, message),
            None => Err(AuthFault::BadHeader),
        }
    }

    /// The key of this id that gives the message this code, or the first fault.
    fn check_parts(
        &self,
        alloc: Global,
        id: &str,
        code: &str,
        message: &[u8],
    ) -> Result<KeyNo, AuthFault>
        ensures answer { IsPlaceOf self.now result (checked_parts self.now id.now (decoded code.now) message.now) }
        ensures known { IfOk result (λ key. key.0 < length self.now) }
    {
        let Some(mac) = decode_mac(alloc, code.as_bytes())? else {
            return Err(AuthFault::BadHeader);
        };
        let Some(place) = place_of(&self.keys, id) else {
            return Err(AuthFault::UnknownKey);
        };
        if is_mac(&self.keys[place], mac.as_slice(), message) {
            Ok(KeyNo(place as u32))
        } else {
            Err(AuthFault::WrongMac)
        }
    }
}

/// The header that a key gives a message.
fn header_of(alloc: Global, key: &Key, message: &[u8]) -> Result<String, NoMemory>
    ensures { IfOk result (λ text. string_bytes text ≡ header_of key.now message.now) }
{
    let mac = digest_digits(&hmac_sha1(key.secret.as_str().as_bytes(), message));
    let mut text = String::from_str(alloc, key.id.as_str())?;
    text.push(' ')?;
    STANDARD.encode_string(&mac, &mut text)?;
    Ok(text)
}

/// The 40 bytes whose base64 a text is.
fn decode_mac(alloc: Global, text: &[u8]) -> Result<Option<Bytes>, NoMemory>
    ensures { IfOk result (λ found. found ≡ decoded text.now) }
{
    match STANDARD.decode(alloc, text) {
        Ok(bytes) => {
            if bytes.len() == 40 {
                Ok(Some(Bytes::new(bytes)))
            } else {
                Ok(None)
            }
        }
        Err(DecodeAllocError::OutOfMemory) => Err(NoMemory),
        Err(_) => Ok(None),
    }
}

/// The place of the key of this id.
fn place_of(keys: &[Key], id: &str) -> Option<usize>
    ensures { result ≡ place_of keys.now id.now }
{
    keys.iter().position(|key| key.id.as_str() == id)
}

/// Whether the mac is that of the key for the message.
fn is_mac(key: &Key, mac: &[u8], message: &[u8]) -> bool
    ensures { result ≡ is_mac key.now mac.now message.now }
{
    let own = digest_digits(&hmac_sha1(key.secret.as_str().as_bytes(), message));
    same_bytes(mac, &own)
}
