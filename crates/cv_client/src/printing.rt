//! What is printed of an answer.
ghost use Rattle.std.specs.Prelude.{◌≡◌, ◌++◌, IfOk, OnOk};
ghost use Rattle.std.specs.List.{flat_map};
ghost use Rattle.cv_client.specs.Texts.{ended, found_text, kind_text, mode_text, number_text, octal_digit, stat_text, target_text};

use cv_base::{NoMemory, Text};
use cv_resolver::{Found, StatLine};
use cv_rows::RowKind;
use std::alloc::Global;

/// The word for what an entry is.
fn kind_text(kind: RowKind) -> &'static str
    ensures { result.now ≡ kind_text kind }
{
    match kind {
        RowKind::Directory | RowKind::Transition | RowKind::NestedRoot => "dir",
        RowKind::File => "file",
        RowKind::Link => "link",
    }
}

/// The last octal digit of a number.
fn octal_digit(number: u32) -> u8
    ensures { result ≡ octal_digit number }
{
    b'0' + (number % 8) as u8
}

/// The four octal digits of permissions.
fn mode_text(mode: u32) -> [u8; 4]
    ensures { result ≡ mode_text mode }
{
    [
        octal_digit(mode / 512),
        octal_digit(mode / 64),
        octal_digit(mode / 8),
        octal_digit(mode),
    ]
}

/// Adds a number behind a space.
fn push_number(alloc: Global, out: &mut Vec<u8>, number: u64) -> Result<(), NoMemory>
    ensures { OnOk result (out.new.items ≡ out.old.items ++ number_text number) }
{
    out.extend_from_slice(b" ")?;
    out.extend_from_slice(number.to_string(alloc)?.as_bytes())?;
    Ok(())
}

/// Adds where a link leads to, and nothing for any other entry.
fn push_target(out: &mut Vec<u8>, kind: RowKind, target: &str) -> Result<(), NoMemory>
    ensures { OnOk result (out.new.items ≡ out.old.items ++ target_text kind target.now) }
{
    match kind {
        RowKind::Link => {
            out.extend_from_slice(b" -> ")?;
            out.extend_from_slice(target.as_bytes())?;
            Ok(())
        }
        RowKind::Directory | RowKind::Transition | RowKind::NestedRoot | RowKind::File => Ok(()),
    }
}

/// What is told of an entry, as a line.
#[tactic(auto, unfolding(crate::specs::Texts::stat_text))]
fn stat_line(alloc: Global, line: &StatLine) -> Result<Vec<u8>, NoMemory>
    ensures { IfOk result (λ text. text.items ≡ ended (stat_text line.now)) }
{
    let mut out = Vec::new(alloc);
    out.extend_from_slice(kind_text(line.kind).as_bytes())?;
    out.extend_from_slice(b" ")?;
    out.extend_from_slice(&mode_text(line.attr.mode))?;
    push_number(alloc, &mut out, u64::from(line.attr.uid))?;
    push_number(alloc, &mut out, u64::from(line.attr.gid))?;
    push_number(alloc, &mut out, line.size)?;
    push_number(alloc, &mut out, line.attr.mtime)?;
    push_target(&mut out, line.kind, line.target.text())?;
    out.extend_from_slice(b"\n")?;
    Ok(out)
}

/// Each name as a line.
fn name_lines(alloc: Global, names: &[Text]) -> Result<Vec<u8>, NoMemory>
    ensures { IfOk result (λ text. text.items ≡ flat_map ended names.now) }
{
    let mut out = Vec::new(alloc);
    for name in names {
        out.extend_from_slice(name.as_str().as_bytes())?;
        out.push(b'\n')?;
    }
    Ok(out)
}

/// What is printed of an answer: names line by line, a line on an entry (its kind, its mode in octal, its user, its group,
/// its size in bytes and its time in seconds since 1970, and where a link leads to), or the content of a file as it is.
pub fn found_text(alloc: Global, found: Found) -> Result<Vec<u8>, NoMemory>
    ensures { IfOk result (λ text. text.items ≡ found_text found) }
{
    match found {
        Found::Names(names) => name_lines(alloc, names.as_slice()),
        Found::Stat(line) => stat_line(alloc, &line),
        Found::Bytes(bytes) => Ok(bytes.into_vec()),
    }
}
