//! What the contracts can't say: values from outside, and that calls find memory.

use cv_json::{read_object, with_number, with_text, with_value, write_object};
use serde_json::{Map, Value};
use std::alloc::Global;
use std::test::Fail;

/// An object as Python's `json` writes it, with its members sorted and no spaces.
const OBJECT: &str = r#"{"list":[],"number":18446744073709551615,"text":"a \"b\"\n"}"#;

/// Whether a text is an object.
fn is_object(alloc: Global, text: &str) -> Result<bool, Fail> {
    Ok(read_object(alloc, text.as_bytes())?.is_some())
}

/// Whether objects nested this deep are one.
fn is_nested_object(alloc: Global, depth: usize) -> Result<bool, Fail> {
    let mut text = r#"{"a":"#.repeat(alloc, depth)?;
    text.push('1')?;
    let ends = "}".repeat(alloc, depth)?;
    text.push_str(ends.as_str())?;
    is_object(alloc, text.as_str())
}

#[test]
fn an_object_is_read(rt: HostRuntime) -> Result<(), Fail> {
    assert!(rt; is_object(rt.alloc(), OBJECT)?);
    assert!(rt; is_nested_object(rt.alloc(), 127)?);
    Ok(())
}

#[test]
fn other_texts_are_no_object(rt: HostRuntime) -> Result<(), Fail> {
    for text in ["[]", "1", r#"{"a":1"#] {
        assert!(rt; !is_object(rt.alloc(), text)?, "{text}");
    }
    assert!(rt; !is_nested_object(rt.alloc(), 128)?);
    Ok(())
}

/// Whether the object that is made of three members is written as this text.
fn is_written(alloc: Global, text: &str) -> Result<bool, Fail> {
    let members = with_text(alloc, Map::new(alloc), "text", "a \"b\"\n")?;
    let members = with_number(alloc, members, "number", u64::MAX)?;
    let members = with_value(alloc, members, "list", Value::Array(Vec::new(alloc)))?;
    let bytes = write_object(alloc, &Value::Object(members))?;
    Ok(bytes.as_slice() == text.as_bytes())
}

#[test]
fn an_object_is_made_and_written(rt: HostRuntime) -> Result<(), Fail> {
    assert!(rt; is_written(rt.alloc(), OBJECT)?);
    Ok(())
}
