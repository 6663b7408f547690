//! What the contracts can't say: values from outside, and that calls find memory.

use cv_messages::{CommitAsk, LeaseAsk, Member, MessageFault, PayloadAsk};
use std::alloc::Global;
use std::test::Fail;

/// Texts that are no lease message, and the first fault of each.
static FAULTS: [(&str, MessageFault); 9] = [
    ("", MessageFault::NotJson),
    ("[]", MessageFault::NotJson),
    (r#"{"path":"a"} x"#, MessageFault::NotJson),
    (r#"{"path":"\ud800"}"#, MessageFault::NotJson),
    (r#"{"path":"a","x":1e999}"#, MessageFault::NotJson),
    ("{}", MessageFault::Missing(Member::Path)),
    (r#"{"Path":"a"}"#, MessageFault::Missing(Member::Path)),
    (r#"{"path":1}"#, MessageFault::WrongType(Member::Path)),
    (
        r#"{"path":"a","path":null}"#,
        MessageFault::WrongType(Member::Path),
    ),
];

/// The fault of this text, if it is no lease message.
fn fault_of(alloc: Global, text: &str) -> Option<MessageFault> {
    LeaseAsk::read(alloc, text.as_bytes()).err()
}

#[test]
fn a_lease_message_has_its_first_fault(rt: HostRuntime) {
    for (text, fault) in &FAULTS {
        assert_eq!(rt; fault_of(rt.alloc(), text), Some(*fault), "{text}");
    }
}

/// Whether a text is a lease message on this path.
fn asks_for(alloc: Global, text: &[u8], path: &str) -> Result<bool, Fail> {
    let ask = LeaseAsk::read(alloc, text)?;
    Ok(ask.path.as_str() == path)
}

/// Whether a text is what is written of the lease message that it says.
fn is_rewritten(alloc: Global, text: &[u8]) -> Result<bool, Fail> {
    let ask = LeaseAsk::read(alloc, text)?;
    let bytes = ask.write(alloc)?;
    Ok(bytes.as_slice() == text)
}

#[test]
fn a_lease_message_is_read_and_written(rt: HostRuntime) -> Result<(), Fail> {
    let text = br#"{"path":"sw.example.org/a"}"#;
    assert!(rt; asks_for(rt.alloc(), text, "sw.example.org/a")?);
    assert!(rt; is_rewritten(rt.alloc(), text)?);
    let twice = br#" {"x":[1.5],"path":"a","path":"b"}"#;
    assert!(rt; asks_for(rt.alloc(), twice, "b")?);
    Ok(())
}

/// The payload message of a pack of no objects, whose header has this digest by `sha1sum`.
const PAYLOAD: &str =
    r#"{"header_size":12,"payload_digest":"b08a09c720c29d01eac55d89ccc12bad7186d45f","session_token":"1-1"}"#;

/// Texts that are no payload message, and the first fault of each.
static PAYLOAD_FAULTS: [(&str, MessageFault); 6] = [
    ("[]", MessageFault::NotJson),
    ("{}", MessageFault::Missing(Member::SessionToken)),
    (
        r#"{"session_token":1,"header_size":1}"#,
        MessageFault::WrongType(Member::SessionToken),
    ),
    (
        r#"{"session_token":"x","payload_digest":"B08A09c720c29d01eac55d89ccc12bad7186d45f"}"#,
        MessageFault::BadValue(Member::Digest),
    ),
    (
        r#"{"session_token":"x","payload_digest":"b08a09c720c29d01eac55d89ccc12bad7186d45f","header_size":"012"}"#,
        MessageFault::BadValue(Member::HeaderSize),
    ),
    (
        r#"{"session_token":"x","payload_digest":"b08a09c720c29d01eac55d89ccc12bad7186d45f","header_size":[12]}"#,
        MessageFault::WrongType(Member::HeaderSize),
    ),
];

#[test]
fn a_payload_message_has_its_first_fault(rt: HostRuntime) {
    for (text, fault) in &PAYLOAD_FAULTS {
        let found = PayloadAsk::read(rt.alloc(), text.as_bytes()).err();
        assert_eq!(rt; found, Some(*fault), "{text}");
    }
}

#[test]
fn a_payload_message_is_read_and_written(rt: HostRuntime) -> Result<(), Fail> {
    let ask = PayloadAsk::read(rt.alloc(), PAYLOAD.as_bytes())?;
    let bytes = ask.write(rt.alloc())?;
    assert_eq!(rt; bytes.as_slice(), PAYLOAD.as_bytes());
    Ok(())
}

/// Texts that are no message of a commit, and the first fault of each.
static COMMIT_FAULTS: [(&str, MessageFault); 10] = [
    (r#"[]"#, MessageFault::NotJson),
    (
        r#"{"new_root_hash":1}"#,
        MessageFault::Missing(Member::OldRoot),
    ),
    (
        r#"{"old_root_hash":null,"new_root_hash":1}"#,
        MessageFault::WrongType(Member::OldRoot),
    ),
    (
        r#"{"old_root_hash":"307aac20fe5391faacd0ea38f9589fb797a3685cH"}"#,
        MessageFault::BadValue(Member::OldRoot),
    ),
    (
        r#"{"old_root_hash":"07aac20fe5391faacd0ea38f9589fb797a3685cC"}"#,
        MessageFault::BadValue(Member::OldRoot),
    ),
    (
        r#"{"old_root_hash":"307aac20fe5391faacd0ea38f9589fb797a3685c","tag_name":1}"#,
        MessageFault::Missing(Member::NewRoot),
    ),
    (
        r#"{"old_root_hash":"307aac20fe5391faacd0ea38f9589fb797a3685c","new_root_hash":"c461d32667895d085fa62849e32f450269470f8fCC"}"#,
        MessageFault::BadValue(Member::NewRoot),
    ),
    (
        r#"{"old_root_hash":"307aac20fe5391faacd0ea38f9589fb797a3685c","new_root_hash":"c461d32667895d085fa62849e32f450269470f8f","tag_name":null}"#,
        MessageFault::WrongType(Member::Tag),
    ),
    (
        r#"{"old_root_hash":"307aac20fe5391faacd0ea38f9589fb797a3685c","new_root_hash":"c461d32667895d085fa62849e32f450269470f8f","tag_name":"\u001f"}"#,
        MessageFault::BadValue(Member::Tag),
    ),
    (
        r#"{"old_root_hash":"307aac20fe5391faacd0ea38f9589fb797a3685c","new_root_hash":"c461d32667895d085fa62849e32f450269470f8f","tag_name":"tttttttttttttttttttttttttttttttttttttttttttttttttttttttttttttttttttttttttttttttttttttttttttttttttttttttttttttttttttttttttttttttttttttttttttttttttttttttttttttttttttttttttttttttttttttttttttttttttttttttttttttttttttttttttttttttttttttttttttttttttttttttttttttttt"}"#,
        MessageFault::BadValue(Member::Tag),
    ),
];

#[test]
fn a_commit_message_has_its_first_fault(rt: HostRuntime) {
    for (text, fault) in &COMMIT_FAULTS {
        let found = CommitAsk::read(rt.alloc(), text.as_bytes()).err();
        assert_eq!(rt; found, Some(*fault), "{text}");
    }
}

/// Messages of a commit by Python's `json`, and how each is written.
static COMMITS: [(&str, &str); 2] = [
    (
        r#"{"new_root_hash":"c461d32667895d085fa62849e32f450269470f8f","old_root_hash":"307aac20fe5391faacd0ea38f9589fb797a3685c","tag_name":"v1 é"}"#,
        r#"{"new_root_hash":"c461d32667895d085fa62849e32f450269470f8f","old_root_hash":"307aac20fe5391faacd0ea38f9589fb797a3685c","tag_name":"v1 é"}"#,
    ),
    (
        r#"{"tag_description":"x","new_root_hash":"c461d32667895d085fa62849e32f450269470f8fC","old_root_hash":"307aac20fe5391faacd0ea38f9589fb797a3685cC"}"#,
        r#"{"new_root_hash":"c461d32667895d085fa62849e32f450269470f8f","old_root_hash":"307aac20fe5391faacd0ea38f9589fb797a3685c","tag_name":""}"#,
    ),
];

#[test]
fn a_commit_message_is_read_and_written(rt: HostRuntime) -> Result<(), Fail> {
    for (read, written) in &COMMITS {
        let ask = CommitAsk::read(rt.alloc(), read.as_bytes())?;
        let bytes = ask.write(rt.alloc())?;
        assert_eq!(rt; bytes.as_slice(), written.as_bytes());
    }
    Ok(())
}
