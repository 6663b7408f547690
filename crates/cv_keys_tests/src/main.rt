//! The tests of cv_keys, as a table: each line of standard input is a question about a keys text, and prints one line.
//!
//! ```text
//! keys TEXT                       reads a keys text, and prints its first key and that key's secret
//! check TEXT|HEADER|MESSAGE       prints the key that gives the message this header, and the header that it gives
//! ```
//!
//! What is refused prints its fault. A header that is a minus lacks. `cv_lines` says how a text stands in a line.
#![tactic(auto)]

use cv_keys::{AuthFault, KeyFault, KeyTable};
use cv_lines::{bytes_of, line_of};
use std::alloc::Global;
use std::test::Fail;

/// The text of a fault of a keys text.
fn refused(alloc: Global, fault: KeyFault) -> Result<String, Fail> {
    Ok(format!(in alloc; "{fault:?}")?)
}

/// The table of a part of a line.
fn table(alloc: Global, text: &str) -> Result<Result<KeyTable, KeyFault>, Fail> {
    let bytes = bytes_of(alloc, text)?;
    Ok(KeyTable::read(alloc, bytes.as_slice()))
}

/// The first key of a table, and its secret.
fn first_key(alloc: Global, table: &KeyTable) -> Result<String, Fail> {
    let key = table.key(table.first());
    let id = key.id.as_str();
    let secret = line_of(alloc, key.secret.as_str().as_bytes())?;
    let secret = secret.as_str();
    Ok(format!(in alloc; "{id} {secret}")?)
}

/// The key that gives a message this header, and the header that it gives.
fn checked(
    alloc: Global,
    table: &KeyTable,
    header: Option<&str>,
    message: &[u8],
) -> Result<String, Fail> {
    match table.check(alloc, header, message) {
        Ok(key) => {
            let given = table.header(alloc, key, message)?;
            let (id, given) = (table.key(key).id.as_str(), given.as_str());
            Ok(format!(in alloc; "{id}|{given}")?)
        }
        Err(fault) => fault_text(alloc, fault),
    }
}

/// The text of a fault of a header.
fn fault_text(alloc: Global, fault: AuthFault) -> Result<String, Fail> {
    Ok(format!(in alloc; "{fault:?}")?)
}

/// What a row about a header prints.
fn check(alloc: Global, row: &str) -> Result<String, Fail> {
    let mut words = row.split('|');
    let (Some(text), Some(header), Some(message)) = (words.next(), words.next(), words.next())
    else {
        return Err(Fail::new("no check"));
    };
    let header = if header == "-" { None } else { Some(header) };
    let message = bytes_of(alloc, message)?;
    match table(alloc, text)? {
        Ok(table) => checked(alloc, &table, header, message.as_slice()),
        Err(fault) => refused(alloc, fault),
    }
}

/// What a line prints.
fn answer(alloc: Global, line: &str) -> Result<String, Fail> {
    match line.split_once(' ') {
        Some(("keys", text)) => match table(alloc, text)? {
            Ok(table) => first_key(alloc, &table),
            Err(fault) => refused(alloc, fault),
        },
        Some(("check", row)) => check(alloc, row),
        _ => Err(Fail::new("no row")),
    }
}

fn main(rt: HostRuntime) -> Result<(), Fail> {
    let alloc = rt.alloc();
    for line in rt.lines(alloc) {
        let text = answer(alloc, line?.as_str())?;
        rt.println(text)?;
    }
    Ok(())
}
