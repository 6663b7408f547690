//! What the contracts can't say: values from outside, and that calls find memory.

use cv_base::{Attr, Bytes, Items, NoMemory, Target, Text};
use cv_client::{Url, found_text};
use cv_resolver::{Found, StatLine};
use cv_rows::RowKind;
use std::alloc::Global;
use std::test::Fail;

/// The text of a URL, its host, its port, its authority and its repository.
static URLS: [(&str, &str, u16, &str, &str); 6] = [
    (
        "http://stratum.example.org/cvmfs/sw.example.org",
        "stratum.example.org",
        80,
        "stratum.example.org",
        "sw.example.org",
    ),
    (
        "http://127.0.0.1:8000/cvmfs/sw.example.org",
        "127.0.0.1",
        8000,
        "127.0.0.1:8000",
        "sw.example.org",
    ),
    ("http://h:80/cvmfs/a", "h", 80, "h:80", "a"),
    ("http://h:1/cvmfs/a", "h", 1, "h:1", "a"),
    (
        "http://A-b.C9:65535/cvmfs/D_e-9.f",
        "A-b.C9",
        65535,
        "A-b.C9:65535",
        "D_e-9.f",
    ),
    ("http://cvmfs/cvmfs/cvmfs", "cvmfs", 80, "cvmfs", "cvmfs"),
];

/// Texts that are no URL of a repository.
static NO_URLS: [&str; 32] = [
    "",
    "http://",
    "http://h",
    "http://h/cvmfs",
    "http://h/cvmfs/",
    "http://h/cvmfs/a/",
    "http://h/cvmfs/a/b",
    "http://h/cvmfs/a b",
    "http://h/cvmfs/a?b",
    "http://h/cvmfs/é",
    "http://h/CVMFS/a",
    "http://h//cvmfs/a",
    "http://h/x/cvmfs/a",
    "http:///cvmfs/a",
    "http://:80/cvmfs/a",
    "http://h:/cvmfs/a",
    "http://h:0/cvmfs/a",
    "http://h:65536/cvmfs/a",
    "http://h:080/cvmfs/a",
    "http://h:+80/cvmfs/a",
    "http://h:-1/cvmfs/a",
    "http://h:8x/cvmfs/a",
    "http://h:18446744073709551696/cvmfs/a",
    "http://h:80:80/cvmfs/a",
    "http://h_h/cvmfs/a",
    "http://é/cvmfs/a",
    "http://u@h/cvmfs/a",
    "http://[::1]/cvmfs/a",
    "https://h/cvmfs/a",
    "HTTP://h/cvmfs/a",
    "h/cvmfs/a",
    " http://h/cvmfs/a",
];

/// The lengths of a host and of a repository's name, and whether there is a URL of such.
static LENGTHS: [(usize, usize, bool); 4] = [
    (253, 1, true),
    (254, 1, false),
    (1, 255, true),
    (1, 256, false),
];

/// Kind, mode, user, group, size, time and target of an entry, and its line.
static LINES: [(RowKind, u32, u32, u32, u64, u64, &str, &str); 6] = [
    (
        RowKind::File,
        0o644,
        0,
        0,
        6,
        1700000000,
        "",
        "file 0644 0 0 6 1700000000\n",
    ),
    (
        RowKind::File,
        0o4755,
        1000,
        100,
        u64::MAX,
        u64::MAX,
        "",
        "file 4755 1000 100 18446744073709551615 18446744073709551615\n",
    ),
    (
        RowKind::Directory,
        0o7777,
        u32::MAX,
        u32::MAX,
        0,
        0,
        "",
        "dir 7777 4294967295 4294967295 0 0\n",
    ),
    (
        RowKind::Directory,
        0,
        10,
        9,
        0,
        1,
        "",
        "dir 0000 10 9 0 1\n",
    ),
    (
        RowKind::Link,
        0o777,
        1,
        2,
        6,
        3,
        "../b c",
        "link 0777 1 2 6 3 -> ../b c\n",
    ),
    (
        RowKind::Link,
        0o1,
        0,
        0,
        0,
        0,
        "",
        "link 0001 0 0 0 0 -> \n",
    ),
];

/// What is read of a text.
fn read(alloc: Global, text: &str) -> Result<Option<Url>, NoMemory> {
    Url::read(alloc, text)
}

/// Whether a text is a URL.
fn is_read(alloc: Global, text: &str) -> Result<bool, NoMemory> {
    Ok(read(alloc, text)?.is_some())
}

/// A text is the URL of a row.
fn is_url(
    alloc: Global,
    text: &str,
    host: &str,
    port: u16,
    authority: &str,
    repository: &str,
) -> Result<bool, Fail> {
    let Some(url) = read(alloc, text)? else {
        return Ok(false);
    };
    let is_authority = url.host.as_str() == host
        && url.port == port
        && url.authority.as_str() == authority;
    Ok(is_authority && url.repository.text() == repository)
}

#[test]
fn a_url_has_a_host_a_port_and_a_name(rt: HostRuntime) -> Result<(), Fail> {
    for (text, host, port, authority, repository) in &URLS {
        let is = is_url(rt.alloc(), text, host, *port, authority, repository)?;
        assert!(rt; is, "at {text}");
    }
    Ok(())
}

#[test]
fn other_texts_are_no_url(rt: HostRuntime) -> Result<(), Fail> {
    for text in &NO_URLS {
        assert!(rt; !is_read(rt.alloc(), text)?, "at {text}");
    }
    Ok(())
}

/// The URL of a host and a name of as many bytes.
fn long_url(alloc: Global, host: usize, name: usize) -> Result<String, Fail> {
    let mut text = String::from_str(alloc, "http://")?;
    for _ in 0..host {
        text.push_str("h")?;
    }
    text.push_str("/cvmfs/")?;
    for _ in 0..name {
        text.push_str("n")?;
    }
    Ok(text)
}

#[test]
fn hosts_and_names_have_limits(rt: HostRuntime) -> Result<(), Fail> {
    for (host, name, good) in &LENGTHS {
        let text = long_url(rt.alloc(), *host, *name)?;
        let is = is_read(rt.alloc(), text.as_str())?;
        assert!(rt; is == *good, "at {host} and {name}");
    }
    Ok(())
}

/// An entry with its target.
fn entry(alloc: Global, kind: RowKind, attr: Attr, size: u64, target: &str) -> Result<Found, Fail> {
    let target = Target::read(alloc, target)?.ok_or("no target")?;
    Ok(Found::Stat(StatLine {
        kind,
        attr,
        size,
        target,
    }))
}

/// Whether these bytes are the text of what was found.
fn is_text(alloc: Global, found: Found, text: &[u8]) -> Result<bool, NoMemory> {
    Ok(found_text(alloc, found)?.as_slice() == text)
}

#[test]
fn an_entry_is_a_line(rt: HostRuntime) -> Result<(), Fail> {
    for (kind, mode, uid, gid, size, mtime, target, line) in &LINES {
        let attr = Attr {
            mode: *mode,
            mtime: *mtime,
            uid: *uid,
            gid: *gid,
        };
        let found = entry(rt.alloc(), *kind, attr, *size, target)?;
        assert!(rt; is_text(rt.alloc(), found, line.as_bytes())?, "at {line}");
    }
    Ok(())
}

/// The texts as the answer of a listing.
fn listing(alloc: Global, names: &[&str]) -> Result<Found, Fail> {
    let mut texts = Vec::new(alloc);
    for name in names {
        texts.push(Text::from_str(alloc, name)?)?;
    }
    Ok(Found::Names(Items::new(texts)))
}

/// Names, and the text of a listing of them.
static LISTINGS: [(&[&str], &str); 2] = [(&["a", "b c", "é"], "a\nb c\né\n"), (&[], "")];

#[test]
fn names_are_lines(rt: HostRuntime) -> Result<(), Fail> {
    for (names, text) in &LISTINGS {
        let found = listing(rt.alloc(), names)?;
        assert!(rt; is_text(rt.alloc(), found, text.as_bytes())?);
    }
    Ok(())
}

#[test]
fn a_content_is_as_it_is(rt: HostRuntime) -> Result<(), Fail> {
    let bytes = Bytes::from_slice(rt.alloc(), b"a\n\xff")?;
    assert!(rt; is_text(rt.alloc(), Found::Bytes(bytes), b"a\n\xff")?);
    Ok(())
}
