//! Bytes as a part of a line, and back.
//!
//! A byte of printable ASCII stands as it is. `\r` and `\n` are a carriage return and a line feed, and a backslash and two
//! digits of base 16 are the byte of that number. `<64*A: b\r\n>` is what stands behind the asterisk 64 times.

use std::alloc::Global;
use std::test::Fail;

/// The byte behind a backslash, and what stands behind it.
fn escaped(part: &str) -> Result<(u8, &str), Fail> {
    if let Some(rest) = part.strip_prefix('r') {
        return Ok((b'\r', rest));
    }
    if let Some(rest) = part.strip_prefix('n') {
        return Ok((b'\n', rest));
    }
    let Some((digits, rest)) = part.split_at_checked(2) else {
        return Err(Fail::new("no byte behind a backslash"));
    };
    Ok((u8::from_str_radix(digits, 16)?, rest))
}

/// Adds the bytes of a text in which nothing is repeated.
fn push_once(bytes: &mut Vec<u8>, text: &str) -> Result<(), Fail> {
    let mut parts = text.split('\\');
    if let Some(part) = parts.next() {
        bytes.extend_from_slice(part.as_bytes())?;
    }
    for part in parts {
        let (byte, rest) = escaped(part)?;
        bytes.push(byte)?;
        bytes.extend_from_slice(rest.as_bytes())?;
    }
    Ok(())
}

/// Adds the bytes of a count, an asterisk and a text: those of the text, so many times.
fn push_copies(alloc: Global, bytes: &mut Vec<u8>, copies: &str) -> Result<(), Fail> {
    let Some((count, text)) = copies.split_once('*') else {
        return Err(Fail::new("no count"));
    };
    let count: u32 = count.parse()?;
    let mut copy = Vec::new(alloc);
    push_once(&mut copy, text)?;
    for _ in 0..count {
        bytes.extend_from_slice(copy.as_slice())?;
    }
    Ok(())
}

/// The bytes that a part of a line says.
pub fn bytes_of(alloc: Global, text: &str) -> Result<Vec<u8>, Fail> {
    let mut bytes = Vec::new(alloc);
    let mut parts = text.split('<');
    if let Some(part) = parts.next() {
        push_once(&mut bytes, part)?;
    }
    for part in parts {
        let Some((copies, rest)) = part.split_once('>') else {
            return Err(Fail::new("no end of what is repeated"));
        };
        push_copies(alloc, &mut bytes, copies)?;
        push_once(&mut bytes, rest)?;
    }
    Ok(bytes)
}

/// Adds a byte to a line.
fn push_byte(alloc: Global, line: &mut String, byte: u8) -> Result<(), Fail> {
    match byte {
        b'\r' => line.push_str("\\r")?,
        b'\n' => line.push_str("\\n")?,
        b' '..=b'~' if !b"\\|<".contains(&byte) => line.push(char::from(byte))?,
        _ => line.push_str(format!(in alloc; "\\{byte:02x}")?.as_str())?,
    }
    Ok(())
}

/// The part of a line that says these bytes: none is repeated, and a backslash, a bar and `<` stand as numbers.
pub fn line_of(alloc: Global, bytes: &[u8]) -> Result<String, Fail> {
    let mut line = String::new(alloc);
    for byte in bytes {
        push_byte(alloc, &mut line, *byte)?;
    }
    Ok(line)
}
