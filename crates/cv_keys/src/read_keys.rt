//! Reading the keys text.
ghost use Rattle.std.specs.Prelude.{◌≡◌, ◌+◌, ◌≤◌, ◌<◌, [], Ok, Err, Some, IfOk, codes, map, length, MatchResult};
ghost use Rattle.std.specs.List.{list_all};
ghost use Rattle.std.specs.Result.{result_map_both};
ghost use Rattle.serde_json.specs.Find.{get};
ghost use Rattle.serde_json.specs.View.{view};
ghost use Rattle.cv_base.specs.Unless.{IsUnless};
ghost use Rattle.cv_keys.specs.Key.{is_visible, is_key_id, is_secret, has_id, IsTable};
ghost use Rattle.cv_keys.specs.KeysText.{member_text, key_in, new_key, keys_behind, array_keys, keys_in_object};
ghost use Rattle.cv_keys.specs.declared.key_fault.KeyFault.TheVariants as faults;
ghost use Rattle.cv_keys.specs.declared.read_keys.TheConstants.{KEY_LIMIT};

use crate::key::Key;
use crate::key_fault::KeyFault;
use cv_base::{KEY_ID_LIMIT, NoMemory, Text};
use serde_json::Value;
use std::alloc::Global;

/// The most keys of a table.
pub const KEY_LIMIT: usize = 256;

/// The most bytes of a key's secret.
pub const SECRET_LIMIT: usize = 255;

/// Whether each byte is a visible ASCII character.
fn is_visible(text: &str) -> bool
    ensures { result ≡ list_all is_visible text.now }
{
    text.bytes().all(|byte| 33 <= byte && byte <= 126)
}

/// Whether a text is a key's id.
fn is_key_id(text: &str) -> bool
    ensures { result ≡ is_key_id text.now }
{
    !text.is_empty() && text.len() <= KEY_ID_LIMIT && is_visible(text)
}

/// Whether a text is a secret.
fn is_secret(text: &str) -> bool
    ensures { result ≡ is_secret text.now }
{
    !text.is_empty() && text.len() <= SECRET_LIMIT
}

/// The id of an element.
fn read_id(value: &Value, place: u32) -> Result<&str, KeyFault>
    ensures { MatchResult result (λ id. member_text place is_key_id (get (codes "id") (view value.now)) ≡ Ok id.now)
        (λ fault. member_text place is_key_id (get (codes "id") (view value.now)) ≡ Err fault) }
{
    let Some(id) = value.get("id") else {
        return Err(KeyFault::Missing(place));
    };
    let Some(id) = id.as_str() else {
        return Err(KeyFault::WrongType(place));
    };
    if is_key_id(id) {
        Ok(id)
    } else {
        Err(KeyFault::BadValue(place))
    }
}

/// The secret of an element.
fn read_secret(value: &Value, place: u32) -> Result<&str, KeyFault>
    ensures { MatchResult result (λ secret. member_text place is_secret (get (codes "secret") (view value.now)) ≡ Ok secret.now)
        (λ fault. member_text place is_secret (get (codes "secret") (view value.now)) ≡ Err fault) }
{
    let Some(secret) = value.get("secret") else {
        return Err(KeyFault::Missing(place));
    };
    let Some(secret) = secret.as_str() else {
        return Err(KeyFault::WrongType(place));
    };
    if is_secret(secret) {
        Ok(secret)
    } else {
        Err(KeyFault::BadValue(place))
    }
}

/// The key that an element is.
fn read_key(alloc: Global, value: &Value, place: u32) -> Result<Key, KeyFault>
    ensures { IsUnless faults.NoMemory result (key_in place (view value.now)) }
{
    if !value.is_object() {
        return Err(KeyFault::WrongType(place));
    }
    let id = read_id(value, place)?;
    let secret = read_secret(value, place)?;
    let id = Text::from_str(alloc, id)?;
    let secret = Text::from_str(alloc, secret)?;
    Ok(Key { id, secret })
}

/// Whether one of the keys has this id.
fn has_id(keys: &[Key], id: &str) -> bool
    ensures { result ≡ has_id keys.now id.now }
{
    keys.iter().any(|key| key.id.as_str() == id)
}

/// The key that an element is, behind others.
fn read_new_key(alloc: Global, before: &[Key], value: &Value, place: u32) -> Result<Key, KeyFault>
    ensures { IsUnless faults.NoMemory result (new_key before.now place (view value.now)) }
{
    let key = read_key(alloc, value, place)?;
    if has_id(before, key.id.as_str()) {
        return Err(KeyFault::Repeated(place));
    }
    Ok(key)
}

/// The keys of the member `keys` of an object.
pub(crate) fn read_keys(alloc: Global, value: &Value) -> Result<Vec<Key>, KeyFault>
    ensures answer { IsUnless faults.NoMemory
        (result_map_both (λ keys. keys.items) (λ fault. fault) result)
        (keys_in_object (Some (view value.now))) }
    ensures table { IfOk result (λ keys. IsTable keys.items) }
{
    let Some(list) = value.get("keys") else {
        return Err(KeyFault::Missing(0));
    };
    let Some(list) = list.as_array() else {
        return Err(KeyFault::WrongType(0));
    };
    read_array(alloc, list)
}

/// The keys of an array.
fn read_array(alloc: Global, list: &[Value]) -> Result<Vec<Key>, KeyFault>
    ensures { IsUnless faults.NoMemory
        (result_map_both (λ keys. keys.items) (λ fault. fault) result)
        (array_keys (map view list.now)) }
{
    if list.len() > KEY_LIMIT {
        return Err(KeyFault::TooMany);
    }
    if list.is_empty() {
        return Err(KeyFault::NoKey);
    }
    read_elements(alloc, list)
}

/// The keys of the elements of an array.
fn read_elements(alloc: Global, list: &[Value]) -> Result<Vec<Key>, KeyFault>
    requires { length list.now ≤ KEY_LIMIT }
    ensures { IsUnless faults.NoMemory
        (result_map_both (λ keys. keys.items) (λ fault. fault) result)
        (keys_behind [] 1 (map view list.now)) }
{
    let mut keys = Vec::new(alloc);
    for i in 0..list.len() {
        let key = read_new_key(alloc, &keys, &list[i], i as u32 + 1)?;
        keys.push(key).map_err(NoMemory::from)?;
    }
    Ok(keys)
}
