//! The steps of the gate that requests ask for.
ghost use Rattle.std.specs.Prelude.{◌≡◌, ◌==◌, true, false, length, drop, bytes_eq, option_map, IfOk, MatchOption, MatchResult};
ghost use Rattle.std.specs.List.{before_first};
ghost use Rattle.cv_base.specs.Path.{IsPath};
ghost use Rattle.cv_gate.specs.Step.{is_key_id};
ghost use Rattle.cv_gate.specs.declared.op.Op.TheVariants as op;
ghost use Rattle.cv_messages.specs.Spelling.{token_of};
ghost use Rattle.cv_session.specs.DenialsInner.{Asks, Denies};
ghost use Rattle.cv_session.specs.Turns.{signed, lease_on, lease_turn, commit_turn, end_turn, token_by};
ghost use Rattle.cv_keys.specs.declared.key.Key.{Key as KeyData};
ghost use Rattle.cv_session.specs.declared.turn.Turn.{Turn};
ghost use Rattle.cv_session.specs.declared.turn.Turn.TheVariants.{Step};

use crate::denial::Denial;
use cv_answers::Reason;
use cv_base::{Name, RepoPath, Token};
use cv_gate::Op;
use cv_keys::{Key, KeyTable};
use cv_messages::{CommitAsk, LeaseAsk};
use std::alloc::Global;

/// The token that no lease has.
const NO_TOKEN: Token = Token {
    epoch: 0,
    number: 0,
};

/// The lease that is asked for by an Authorization header and a body.
pub(crate) fn asked_lease(
    alloc: Global,
    repository: &Name,
    keys: &KeyTable,
    header: Option<&str>,
    body: &[u8],
) -> Result<Op, Denial>
    ensures { Asks (lease_turn repository.now keys.now (option_map (λ text. text.now) header.entry) body.now) result }
{
    let key = read_signer(alloc, keys, header, body)?;
    let ask = LeaseAsk::read(alloc, body)?;
    let path = read_leased(alloc, repository, ask.path.as_str())?;
    Ok(Op::Lease {
        key: key.id.copy(alloc)?,
        path,
    })
}

/// The commit that is asked for by an Authorization header, the text of a lease's token and a body.
pub(crate) fn asked_commit(
    alloc: Global,
    keys: &KeyTable,
    header: Option<&str>,
    text: &str,
    body: &[u8],
) -> Result<Op, Denial>
    ensures { Asks (commit_turn keys.now (option_map (λ value. value.now) header.entry) text.now body.now) result }
{
    let key = read_signer(alloc, keys, header, text.as_bytes())?;
    let ask = CommitAsk::read(alloc, body)?;
    let old_root = ask.old_root;
    let new_root = ask.new_root;
    Ok(Op::Commit {
        key: key.id.copy(alloc)?,
        token: read_token(text),
        old_root,
        new_root,
        tag: ask.tag,
    })
}

/// The end of a lease that is asked for by an Authorization header and the text of the lease's token.
pub(crate) fn asked_end(
    alloc: Global,
    keys: &KeyTable,
    header: Option<&str>,
    token: &str,
) -> Result<Op, Denial>
    ensures { Asks (end_turn keys.now (option_map (λ text. text.now) header.entry) token.now) result }
{
    let key = read_signer(alloc, keys, header, token.as_bytes())?;
    Ok(Op::Cancel {
        key: key.id.copy(alloc)?,
        token: read_token(token),
    })
}

/// The key that signed the message by this header.
pub(crate) fn read_signer<'a>(
    alloc: Global,
    keys: &'a KeyTable,
    header: Option<&str>,
    message: &[u8],
) -> Result<&'a Key, Denial>
    ensures signed { (asks : KeyData → Turn) →
        let turn = signed keys.now (option_map (λ text. text.now) header.entry) message.now asks in
        MatchResult result (λ key. turn ≡ asks key.now) (Denies turn) }
    ensures key { IfOk result (λ key. is_key_id key.now.id ≡ true) }
{
    let key = keys.check(alloc, header, message)?;
    Ok(keys.key(key))
}

/// The path of a lease on what a text says: the repository's name, and behind it nothing or the text of a path.
fn read_leased(alloc: Global, repository: &Name, text: &str) -> Result<RepoPath, Denial>
    ensures turn { (key : KeyData) →
        let turn = lease_on repository.now text.now key in
        MatchResult result (λ path. turn ≡ Step (op.Lease key.id path)) (Denies turn) }
    ensures path { IfOk result (λ path. IsPath path) }
{
    let Some(path) = strip_name(repository, text) else {
        return Err(Denial::new(Reason::UnknownRepository));
    };
    match RepoPath::read(alloc, path) {
        Ok(path) => Ok(path),
        Err(fault) => {
            fault.unless_memory()?;
            Err(Denial::new(Reason::BadPath))
        }
    }
}

/// What follows the repository's name, where that is what a text has before its first slash.
fn strip_name<'a>(repository: &Name, text: &'a str) -> Option<&'a str>
    ensures { MatchOption result (bytes_eq (before_first (λ b. b == 47) text.now) repository.now ≡ false)
        (λ rest. (bytes_eq (before_first (λ b. b == 47) text.now) repository.now ≡ true) × (rest.now ≡ drop (length repository.now) text.now)) }
{
    let rest = text.strip_prefix(repository.text())?;
    if rest.is_empty() || rest.starts_with('/') {
        Some(rest)
    } else {
        None
    }
}

/// The token of a text, or the one that no lease has.
pub(crate) fn read_token(text: &str) -> Token
    ensures { result ≡ token_by (token_of text.now) }
{
    match Token::read(text) {
        Some(token) => token,
        None => NO_TOKEN,
    }
}
