//! What is printed of a line.
ghost use Rattle.std.specs.Prelude.{◌≡◌, ◌++◌, IfOk, string_bytes};
ghost use Rattle.cv_base.specs.ObjectId.{id_text};
ghost use Rattle.cv_shell.specs.Texts.{count_line, answer_text, fault_text, renewal_text, refusal};

use cv_base::{NoMemory, ObjectId};
use cv_client::found_text;
use cv_resolver::{ClientFault, Found, RenewFault};
use std::alloc::Global;

/// A word and a number, as a line.
pub fn count_line(alloc: Global, word: &str, count: u64) -> Result<Vec<u8>, NoMemory>
    ensures { IfOk result (λ line. line.items ≡ count_line word.now count) }
{
    let mut out = Vec::from_slice(alloc, word.as_bytes())?;
    out.extend_from_slice(b" ")?;
    out.extend_from_slice(count.to_string(alloc)?.as_bytes())?;
    out.extend_from_slice(b"\n")?;
    Ok(out)
}

/// What is printed of an answer: names and the content of a file behind a line that counts them, or a line on an entry.
pub(crate) fn answer_text(alloc: Global, found: Found) -> Result<Vec<u8>, NoMemory>
    ensures { IfOk result (λ text. text.items ≡ answer_text found) }
{
    match found {
        Found::Names(names) => {
            let mut out = count_line(alloc, "names", names.as_slice().len() as u64)?;
            let text = found_text(alloc, Found::Names(names))?;
            out.extend_from_slice(text.as_slice())?;
            Ok(out)
        }
        Found::Stat(line) => found_text(alloc, Found::Stat(line)),
        Found::Bytes(bytes) => {
            let mut out = count_line(alloc, "bytes", bytes.as_slice().len() as u64)?;
            out.extend_from_slice(bytes.as_slice())?;
            out.extend_from_slice(b"\n")?;
            Ok(out)
        }
    }
}

/// Words, and the text of an id behind them.
fn with_id(alloc: Global, words: &str, id: ObjectId) -> Result<String, NoMemory>
    ensures { IfOk result (λ text. string_bytes text ≡ words.now ++ id_text id) }
{
    let mut text = String::from_str(alloc, words)?;
    text.push_str(id.text(alloc)?.as_str())?;
    Ok(text)
}

/// Why nothing was found, in words, and the id where there is one.
pub fn fault_text(alloc: Global, fault: ClientFault) -> Result<String, NoMemory>
    ensures { IfOk result (λ text. string_bytes text ≡ fault_text fault) }
{
    match fault {
        ClientFault::NotFound => Ok(String::from_str(alloc, "not found")?),
        ClientFault::NotDirectory => Ok(String::from_str(alloc, "not a directory")?),
        ClientFault::NotFile => Ok(String::from_str(alloc, "not a file")?),
        ClientFault::TooManyLinks => Ok(String::from_str(alloc, "too many links")?),
        ClientFault::BadObject { id, .. } => with_id(alloc, "bad object ", id),
        ClientFault::BadCatalogue(id) => with_id(alloc, "bad catalogue ", id),
        ClientFault::NotServed(id) => with_id(alloc, "not served ", id),
        ClientFault::NoMemory => Ok(String::from_str(alloc, "out of memory")?),
    }
}

/// Why a manifest isn't taken, in words.
pub(crate) fn renewal_text(fault: RenewFault) -> &'static str
    ensures { result.now ≡ renewal_text fault }
{
    match fault {
        RenewFault::Older { .. } => "older",
        RenewFault::OtherRepository => "other repository",
        RenewFault::Forked { .. } => "forked",
    }
}

/// A line that refuses for this cause.
pub(crate) fn refusal(alloc: Global, cause: &str) -> Result<Vec<u8>, NoMemory>
    ensures { IfOk result (λ line. line.items ≡ refusal cause.now) }
{
    let mut out = Vec::from_slice(alloc, b"refused: ")?;
    out.extend_from_slice(cause.as_bytes())?;
    out.extend_from_slice(b"\n")?;
    Ok(out)
}
