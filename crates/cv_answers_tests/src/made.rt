//! Answers that are made of a line's words.
ghost use Rattle.std.specs.Prelude.{◌≡◌, true, IfOk};
ghost use Rattle.cv_answers.specs.AnswerText.{is_answer};

use cv_answers::{Answer, LeaseItem, Refusal};
use cv_base::{Items, Text, Token, read_digest};
use cv_messages::Member;
use std::alloc::Global;
use std::test::Fail;

/// The three words behind the first one.
fn three(words: &str) -> Result<(&str, &str, &str), Fail> {
    let mut words = words.split(' ');
    let (Some(first), Some(second), Some(third)) = (words.next(), words.next(), words.next()) else {
        return Err(Fail::new("no three words"));
    };
    Ok((first, second, third))
}

/// A lease that is granted.
fn granted(words: &str) -> Result<Answer, Fail>
    ensures { IfOk result (λ answer. is_answer answer ≡ true) }
{
    let (token, revision, root) = three(words)?;
    let (Some(token), Some(root)) = (Token::read(token), read_digest(root.as_bytes())) else {
        return Err(Fail::new("no token and no root"));
    };
    let revision: u64 = revision.parse()?;
    Ok(Answer::Granted {
        token,
        revision,
        root,
    })
}

/// The live leases that are one.
fn leases(alloc: Global, words: &str) -> Result<Answer, Fail>
    ensures { IfOk result (λ answer. is_answer answer ≡ true) }
{
    let (key, path, remaining) = three(words)?;
    let item = LeaseItem {
        key: Text::from_str(alloc, key)?,
        path: Text::from_str(alloc, path)?,
        remaining: remaining.parse()?,
    };
    let mut items = Vec::new(alloc);
    items.push(item)?;
    Ok(Answer::Leases(Items::new(items)))
}

/// The answer that a line's words say.
pub(crate) fn answer(alloc: Global, line: &str) -> Result<Answer, Fail>
    ensures { IfOk result (λ answer. is_answer answer ≡ true) }
{
    match line.split_once(' ') {
        Some(("grant", words)) => granted(words),
        Some(("lease", words)) => leases(alloc, words),
        None if line == "missing" => Ok(Answer::Refused(Refusal::MissingMember(Member::Path))),
        _ => Err(Fail::new("no row")),
    }
}
