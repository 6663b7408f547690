//! The requests of a publisher.
ghost use Rattle.std.specs.Prelude.{◌≡◌, ◌≢◌, ◌++◌, [], IfOk, string_bytes};
ghost use Rattle.cv_base.specs.Token.{token_text};
ghost use Rattle.cv_messages.specs.Targets.{lease_target};
ghost use Rattle.cv_pack.specs.Pack.{contents};
ghost use Rattle.cv_publisher.specs.Packing.{AreSendable, objects_at};
ghost use Rattle.cv_publisher.specs.Requests.{SendsFront, cancel_request, commit_message, commit_request, file_request, lease_message, lease_request, manifest_request, object_request, message_of_header, payload_request, signature};

use crate::filling::{filled, front_of};
use crate::plan::Plan;
use cv_base::{Bytes, Name, NoMemory, Object, ObjectId, RepoPath, Text, Token};
use cv_http::{Outgoing, Verb, request_for_file};
use cv_keys::KeyTable;
use cv_manifest::MANIFEST_NAME;
use cv_messages::{CommitAsk, LEASE, LEASES, LeaseAsk, PAYLOADS, PayloadAsk};
use cv_pack::PackWriter;
use sha1::Sha1;
use std::alloc::Global;

/// The header by which the first key signs a message.
fn signature(alloc: Global, keys: &KeyTable, message: &[u8]) -> Result<Option<Text>, NoMemory>
    ensures { IfOk result (λ header. header ≡ signature keys.now message.now) }
{
    let header = keys.header(alloc, keys.first(), message)?;
    Ok(Some(Text::new(header)))
}

/// The message that asks for a lease.
fn lease_message(alloc: Global, name: &Name, path: &RepoPath) -> Result<Vec<u8>, NoMemory>
    ensures { IfOk result (λ message. message.items ≡ lease_message name.now path.now) }
{
    let mut text = String::from_str(alloc, name.text())?;
    text.push_str(path.text(alloc)?.as_str())?;
    let ask = LeaseAsk {
        path: Text::new(text),
    };
    ask.write(alloc)
}

/// The request for a lease on the path.
pub(crate) fn lease_request(
    alloc: Global,
    keys: &KeyTable,
    plan: &Plan,
) -> Result<Outgoing, NoMemory>
    ensures { IfOk result (λ request. request ≡ lease_request keys.now plan.now) }
{
    let message = lease_message(alloc, &plan.name, &plan.path)?;
    Ok(Outgoing {
        method: Verb::Post,
        host: plan.host.copy(alloc)?,
        target: Text::from_str(alloc, LEASES)?,
        authorization: signature(alloc, keys, &message)?,
        message_size: None,
        body: Bytes::new(message),
    })
}

/// The request for a file of the repository.
fn file_request(alloc: Global, plan: &Plan, file: &str) -> Result<Outgoing, NoMemory>
    ensures { IfOk result (λ request. request ≡ file_request plan.now file.now) }
{
    request_for_file(alloc, &plan.host, plan.name.text(), file)
}

/// The request for the manifest.
pub(crate) fn manifest_request(alloc: Global, plan: &Plan) -> Result<Outgoing, NoMemory>
    ensures { IfOk result (λ request. request ≡ manifest_request plan.now) }
{
    file_request(alloc, plan, MANIFEST_NAME)
}

/// The request for an object.
pub(crate) fn object_request(
    alloc: Global,
    plan: &Plan,
    id: &ObjectId,
) -> Result<Outgoing, NoMemory>
    ensures { IfOk result (λ request. request ≡ object_request plan.now id.now) }
{
    let file = id.file_name(alloc)?;
    file_request(alloc, plan, file.as_str())
}

/// The message of a payload, by the header of its pack.
fn payload_message(alloc: Global, token: Token, header: &[u8]) -> Result<Vec<u8>, NoMemory>
    ensures { IfOk result (λ message. message.items ≡ message_of_header token header.now) }
{
    let ask = PayloadAsk {
        token: Text::new(token.text(alloc)?),
        digest: Sha1::digest(header),
        header_size: header.len() as u64,
    };
    ask.write(alloc)
}

/// A message with a pack behind it, whose header this is.
fn payload_body(message: Vec<u8>, header: &[u8], pack: &PackWriter) -> Result<Bytes, NoMemory>
    ensures { IfOk result (λ body. body ≡ message.items ++ header.now ++ contents pack.now) }
{
    let mut body = message;
    body.reserve(header.len() + pack.contents_size())?;
    body.extend_from_slice(header)?;
    pack.append_contents(&mut body)?;
    Ok(Bytes::new(body))
}

/// The request that sends a pack.
fn pack_request(
    alloc: Global,
    keys: &KeyTable,
    plan: &Plan,
    token: Token,
    pack: &PackWriter,
) -> Result<Outgoing, NoMemory>
    ensures { IfOk result (λ request. request ≡ payload_request keys.now plan.now token pack.now) }
{
    let header = pack.header()?;
    let message = payload_message(alloc, token, &header)?;
    let authorization = signature(alloc, keys, &message)?;
    let message_size = message.len() as u64;
    Ok(Outgoing {
        method: Verb::Post,
        host: plan.host.copy(alloc)?,
        target: Text::from_str(alloc, PAYLOADS)?,
        authorization,
        message_size: Some(message_size),
        body: payload_body(message, &header, pack)?,
    })
}

/// The request that sends the first of the objects that are left, as many as one pack takes.
pub(crate) fn payload_request(
    alloc: Global,
    keys: &KeyTable,
    plan: &Plan,
    token: Token,
    catalogues: &[Object],
    left: &[usize],
) -> Result<Outgoing, NoMemory>
    requires sendable { AreSendable (plan.now.changes.objects ++ catalogues.now) left.now }
    requires some { left.now ≢ [] }
    ensures { IfOk result (SendsFront keys.now plan.now token (objects_at (plan.now.changes.objects ++ catalogues.now) left.now)) }
{
    let contents = plan.changes.objects();
    let count = front_of(contents, catalogues, left);
    let (places, _) = left.split_at(count);
    let pack = filled(alloc, contents, catalogues, places)?;
    pack_request(alloc, keys, plan, token, &pack)
}

/// The target of a lease.
fn lease_target(alloc: Global, token: &str) -> Result<String, NoMemory>
    ensures { IfOk result (λ text. string_bytes text ≡ lease_target token.now) }
{
    let mut text = String::from_str(alloc, LEASE)?;
    text.push_str(token)?;
    Ok(text)
}

/// A request to the lease of a token, whose text is signed.
fn token_request(
    alloc: Global,
    keys: &KeyTable,
    plan: &Plan,
    method: Verb,
    token: Token,
    body: Vec<u8>,
) -> Result<Outgoing, NoMemory>
    ensures { IfOk result (λ request. request ≡ record {
      method = method;
      host = plan.now.host;
      target = lease_target (token_text token);
      authorization = signature keys.now (token_text token);
      message_size = None;
      body = body.items;
    }) }
{
    let text = token.text(alloc)?;
    Ok(Outgoing {
        method,
        host: plan.host.copy(alloc)?,
        target: Text::new(lease_target(alloc, text.as_str())?),
        authorization: signature(alloc, keys, text.as_bytes())?,
        message_size: None,
        body: Bytes::new(body),
    })
}

/// The message of a commit of this root, made on that one, without a tag.
fn commit_message(alloc: Global, base: [u8; 20], root: [u8; 20]) -> Result<Vec<u8>, NoMemory>
    ensures { IfOk result (λ message. message.items ≡ commit_message base root) }
{
    let ask = CommitAsk {
        old_root: base,
        new_root: root,
        tag: Text::new(String::new(alloc)),
    };
    ask.write(alloc)
}

/// The request for the commit of this root, made on that one.
pub(crate) fn commit_request(
    alloc: Global,
    keys: &KeyTable,
    plan: &Plan,
    token: Token,
    base: [u8; 20],
    root: [u8; 20],
) -> Result<Outgoing, NoMemory>
    ensures { IfOk result (λ request. request ≡ commit_request keys.now plan.now token base root) }
{
    let message = commit_message(alloc, base, root)?;
    token_request(alloc, keys, plan, Verb::Post, token, message)
}

/// The request for the end of the lease.
pub(crate) fn cancel_request(
    alloc: Global,
    keys: &KeyTable,
    plan: &Plan,
    token: Token,
) -> Result<Outgoing, NoMemory>
    ensures { IfOk result (λ request. request ≡ cancel_request keys.now plan.now token) }
{
    token_request(alloc, keys, plan, Verb::Delete, token, Vec::new(alloc))
}
