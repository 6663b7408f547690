//! What a line asks.
ghost use Rattle.std.specs.Prelude.{◌≡◌, ◌≢◌, ◌++◌, ℕ, List, Some, MatchOption, IfOk, IfSome};
ghost use Rattle.cv_shell.specs.Line.{word_of, question_of, PathIn, Says};
ghost use Rattle.cv_shell.specs.LineInner.{NoPathIn};
ghost use Rattle.cv_shell.specs.declared.line.Line.{Line as TheLine};

use cv_base::{NoMemory, RepoPath};
use cv_resolver::Question;
use std::alloc::Global;

/// What a line asks.
#[derive(Debug, Drop)]
pub enum Line {
    /// A question about a path.
    Ask(Question),
    /// To take the newest revision.
    Renew,
}

/// The kinds of questions.
#[derive(Clone, Copy, Debug)]
pub(crate) enum Verb {
    /// The names in a directory.
    List,
    /// One entry.
    Stat,
    /// The content of a file.
    Read,
}

impl Verb {
    /// The question of this kind about a path.
    fn question(self, path: RepoPath) -> Question
        ensures { result ≡ question_of self path }
    {
        match self {
            Verb::List => Question::List(path),
            Verb::Stat => Question::Stat(path),
            Verb::Read => Question::Read(path),
        }
    }
}

/// What follows a word.
fn strip<'a>(text: &'a [u8], word: &[u8]) -> Option<&'a [u8]>
    ensures { MatchOption result ((rest : List ℕ) → text.now ≢ word.now ++ rest) (λ rest. text.now ≡ word.now ++ rest.now) }
{
    text.strip_prefix(word)
}

/// The kind of a question, and the text of its path.
fn split_question(text: &[u8]) -> Option<(Verb, &[u8])>
    ensures { MatchOption result ((verb : _) (path : List ℕ) → text.now ≢ word_of verb ++ path)
        (λ parts. text.now ≡ word_of parts.0 ++ parts.1.now) }
{
    if let Some(path) = strip(text, b"ls ".as_slice()) {
        return Some((Verb::List, path));
    }
    if let Some(path) = strip(text, b"stat ".as_slice()) {
        return Some((Verb::Stat, path));
    }
    let path = strip(text, b"cat ".as_slice())?;
    Some((Verb::Read, path))
}

/// The path that bytes say, if they say one.
fn read_path(alloc: Global, bytes: &[u8]) -> Result<Option<RepoPath>, NoMemory>
    ensures { IfOk result (λ found. MatchOption found (NoPathIn bytes.now) (PathIn bytes.now)) }
{
    let Ok(text) = std::str::from_utf8(bytes) else {
        return Ok(None);
    };
    match RepoPath::read(alloc, text) {
        Ok(path) => Ok(Some(path)),
        Err(fault) => {
            fault.unless_memory()?;
            Ok(None)
        }
    }
}

/// What a line asks: `renew`; or `ls`, `stat` or `cat`, one space and a path, of which the empty text is the root. `None` where
/// it is of another form.
pub fn read_line(alloc: Global, text: &[u8]) -> Result<Option<Line>, NoMemory>
    ensures says { IfOk result (λ read. IfSome read (Says text.now)) }
    ensures found { (line : TheLine) → Says text.now line → IfOk result (λ read. read ≡ Some line) }
{
    if text == b"renew".as_slice() {
        return Ok(Some(Line::Renew));
    }
    let Some((verb, bytes)) = split_question(text) else {
        return Ok(None);
    };
    match read_path(alloc, bytes)? {
        Some(path) => Ok(Some(Line::Ask(verb.question(path)))),
        None => Ok(None),
    }
}
