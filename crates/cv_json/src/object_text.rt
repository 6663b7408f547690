//! JSON objects (RFC 8259), read and written.
ghost use Rattle.std.specs.Prelude.{◌≡◌, ◌≤◌, Some, true, false, is_some, IfOk, option_map};
ghost use Rattle.serde_json.specs.Data.{depth};
ghost use Rattle.serde_json.specs.Find.{as_object};
ghost use Rattle.serde_json.specs.Read.{max_depth};
ghost use Rattle.serde_json.specs.View.{view};
ghost use Rattle.serde_json.specs.Written.{compact_text, has_float};
ghost use Rattle.cv_json.specs.ObjectText.{object_in};

use cv_base::NoMemory;
use serde_json::Value;
use std::alloc::Global;

/// The JSON object that a text is. None where it is none, or nests deeper than 127.
pub fn read_object(alloc: Global, text: &[u8]) -> Result<Option<Value>, NoMemory>
    ensures { IfOk result (λ found. option_map view found ≡ object_in text.now) }
{
    match Value::from_slice(alloc, text) {
        Ok(value) => {
            if value.is_object() {
                Ok(Some(value))
            } else {
                Ok(None)
            }
        }
        Err(error) => {
            if error.is_memory() {
                Err(NoMemory)
            } else {
                Ok(None)
            }
        }
    }
}

/// The compact text of an object without floats.
pub fn write_object(alloc: Global, value: &Value) -> Result<Vec<u8>, NoMemory>
    requires object { is_some (as_object (view value.now)) ≡ true }
    requires no_float { has_float (view value.now) ≡ false }
    requires shallow { depth (view value.now) ≤ max_depth }
    ensures text { IfOk result (λ bytes. bytes.items ≡ compact_text (view value.now)) }
    ensures reads_back { IfOk result (λ bytes. object_in bytes.items ≡ Some (view value.now)) }
{
    Ok(value.to_vec(alloc)?)
}
