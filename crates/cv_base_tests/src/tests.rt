//! What the contracts can't say: values from outside, and that calls find memory.

use cv_base::{
    Kind, Name, ObjectId, PathFault, RepoPath, Target, Token, cmp_texts, read_array, read_bytes,
    read_decimal, read_length, read_u16, read_u32, read_u64, split_u16, split_u32, split_u64,
};
use std::alloc::Global;
use std::cmp::Ordering;
use std::test::Fail;

/// Paths and their keys, by the `hashlib` of Python.
static KEYS: [(&str, &str); 45] = [
    ("/", "d41d8cd98f00b204e9800998ecf8427e"),
    ("/a", "0639767f3e9eaad729b54037a7e2abf5"),
    ("/ab", "ff594c70ffa0a50d7926a419007a6dd7"),
    ("/a/b", "aee31d71a4dce5fe24481547cc863476"),
    ("/a/b/c", "77e3b8b350a61e972a8cfb7dcc886145"),
    ("/d/f", "08227ee67df92d3f9e3516ba38228da6"),
    ("/d/g", "fe6d224f2fe186dff9a69bd329190c21"),
    ("/n/m", "d367e13c2fb1def1bf54ad675f77b2bc"),
    ("/x", "cc8755609ad61864910f145119713de9"),
    ("/y", "a72df3f6810a09aca60c3e01d91312d5"),
    ("/q", "96ce73b1d148e372f92c9d0292f545b5"),
    ("/r1", "9d855ec04bb64e68c659470a8ce35086"),
    ("/r2", "7c41c2bdd0ab2ebeff1ffc5f5adf940a"),
    ("/.cvmfscatalog", "1023d7a3321460af296b66e8e71527dc"),
    ("/a/.cvmfscatalog", "a1ab427bb943550f4b41a1bc25d7b8d7"),
    ("/.wh.old", "d3ca217845152925b57f180bad9b9d02"),
    ("/.wh..wh..opq", "b0a8ec57a231d6e73d0e0a0a6e7f1efc"),
    ("/a.b", "6294a3ad3e296bd0da269c3bdae22b50"),
    ("/a b", "937f8c49ed3952555dd678270ae03c89"),
    ("/...", "435762729dbb5db61cb3d8c3a3ce168d"),
    ("/..a", "2911ddd7560b7e517efa2c4e9942bc62"),
    ("/.a", "aec43b1160c308296dd0e2d0f04c4f2e"),
    ("/a-b", "38630e36435207ce0906dbd63835ac8e"),
    ("/a/x", "75ff9e22fcb34fb766b4299397b98606"),
    ("/A", "e62fb7061d96488f28377b9b7c87a5f3"),
    ("/é", "9bf93bb8f71d4a79da1ff904c79e2410"),
    ("/ü/ö/ä", "0221ffc309794652d1ff6e4b68956c00"),
    ("/名前", "dbdc4dce60c93ee7677b026fd1e9e063"),
    ("/данные/файл", "1433851d191c279b6cbe9dad1ad83710"),
    ("/💾", "5b08dc042d181d574a65c7654a437b03"),
    ("/café", "f84d1873144dd068c4f708a9a6134077"),
    ("/a\\b", "eb23a8bd510d1788aa054fa593cb7568"),
    ("/\"quoted\"", "7f3e938a004aca0d84aa8d6cc55cb127"),
    ("/tab\there", "1fb70342692c76179d607c381c844a7b"),
    ("/line\nfeed", "5e7751af25a2fe6bd67450c2beb2da79"),
    ("/~", "64221d439a53bf9e34bfa9c85a435c3a"),
    ("/%2F", "4f46e57e8052b769c0fdc974fa98fa20"),
    (
        "/usr/lib/x86_64-linux-gnu/libc.so.6",
        "76f255670afdc104e26939d52c31ac94",
    ),
    (
        "/sw/release/2026.11/bin/run",
        "0746ffe35b15640db0d21bf436df7f21",
    ),
    (
        "/opt/gcc-13.2.0/include/c++/13.2.0/bits/stl_algo.h",
        "010f91c84b43da68eb92165b70bbef06",
    ),
    (
        "/nnnnnnnnnnnnnnnnnnnnnnnnnnnnnnnnnnnnnnnnnnnnnnnnnnnnnn",
        "7e454d360dd495184918e0718ab89ff0",
    ),
    (
        "/nnnnnnnnnnnnnnnnnnnnnnnnnnnnnnnnnnnnnnnnnnnnnnnnnnnnnnn",
        "e8400f2aa02c1e25b350b1653268b716",
    ),
    (
        "/nnnnnnnnnnnnnnnnnnnnnnnnnnnnnnnnnnnnnnnnnnnnnnnnnnnnnnnn",
        "17b230a280d02fb8109f77cffb7c9983",
    ),
    (
        "/nnnnnnnnnnnnnnnnnnnnnnnnnnnnnnnnnnnnnnnnnnnnnnnnnnnnnnnnnnnnnn",
        "af5b2709ed0aaac97229230dec582b62",
    ),
    (
        "/d0/d1/d2/d3/d4/d5/d6/d7/d8/d9/d10/d11/d12/d13/d14/d15",
        "41317dbd99d221a1a4b5d69dc611ee96",
    ),
];

/// Paths of one name, which is a character repeated, and their keys.
static KEYS_OF_LONG_NAMES: [(&str, usize, &str); 12] = [
    ("n", 54, "7e454d360dd495184918e0718ab89ff0"),
    ("n", 55, "e8400f2aa02c1e25b350b1653268b716"),
    ("n", 56, "17b230a280d02fb8109f77cffb7c9983"),
    ("n", 62, "af5b2709ed0aaac97229230dec582b62"),
    ("n", 63, "7ea7a38247cfd9ff6a87fa23e240ca69"),
    ("n", 64, "e550fb8d80893eb9cfd966c2d43c298e"),
    ("n", 118, "52d6b7ef88ab557044570073be6ec0c1"),
    ("n", 119, "70b0609ff56eaa2c9001694c79ced628"),
    ("n", 127, "1549e0a2e4c635dc6fae7e1a8df76e54"),
    ("n", 254, "24613e63b883233551c02512aa705f9e"),
    ("n", 255, "47588b2731b82e7da9dc6a23dc3472e4"),
    ("é", 127, "8bf536d74544d6fd3decb1c258818a8d"),
];

/// Paths of one name repeated, and their keys.
static KEYS_OF_DEEP_PATHS: [(&str, usize, &str); 8] = [
    ("d", 1, "0c606f9929ab0de4b9d1961ce5dfdadf"),
    ("d", 16, "6eea70e37e69d9a6f706b2226778b958"),
    ("d", 32, "a9d179ff1f08e2592a390bc7dbc28e86"),
    ("d", 63, "10ac102cf1d4b4db60b3c8f501107378"),
    ("d", 64, "d98d12f366da20b8993f064f3dbd5225"),
    ("é", 64, "fc188d6a28fbaf41fcd4efd8feb83053"),
    (
        "xxxxxxxxxxxxxxxxxxxxxxxxxxxxxxxxxxxxxxxxxxxxxxxxxxxxxxxxxxxxxx",
        64,
        "2046f7f6149a5ecd53ee0565bb75867c",
    ),
    (
        "yyyyyyyyyyyyyyyyyyyyyyyyyyyyyyyyyyyyyyyyyyyyyyyyyyyyyyyyyyyyyyy",
        2,
        "a496bdd06ede797d251470f7f800a070",
    ),
];

/// Texts that are no path, and the first fault of each.
static FAULTS: [(&str, PathFault); 14] = [
    ("a", PathFault::BadName(0)),
    ("a/b/../c", PathFault::BadName(0)),
    ("//", PathFault::BadName(0)),
    ("/a//b", PathFault::BadName(1)),
    ("/a//", PathFault::BadName(1)),
    ("/.", PathFault::BadName(0)),
    ("/..", PathFault::BadName(0)),
    ("/a/.", PathFault::BadName(1)),
    ("/a/b/..", PathFault::BadName(2)),
    ("/a\0b", PathFault::BadName(0)),
    ("/a/\0", PathFault::BadName(1)),
    ("/a/../.", PathFault::BadName(1)),
    (" /a", PathFault::BadName(0)),
    (".", PathFault::BadName(0)),
];

/// A text of this many copies of another.
fn repeated(alloc: Global, text: &str, count: usize) -> Result<String, Fail> {
    let mut all = String::new(alloc);
    for _ in 0..count {
        all.push_str(text)?;
    }
    Ok(all)
}

/// The key of the path of this text, in hex.
fn key_text(alloc: Global, text: &str) -> Result<String, Fail> {
    let path = RepoPath::read(alloc, text)?;
    Ok(hex::encode(alloc, &path.key().0)?)
}

/// The fault of this text, if it is no path.
fn fault_of(alloc: Global, text: &str) -> Option<PathFault> {
    RepoPath::read(alloc, text).err()
}

#[test]
fn keys_are_those_of_hashlib(rt: HostRuntime) -> Result<(), Fail> {
    for (text, key) in &KEYS {
        assert!(rt; key_text(rt.alloc(), text)?.as_str() == *key);
    }
    Ok(())
}

#[test]
fn keys_of_long_names_are_those_of_hashlib(rt: HostRuntime) -> Result<(), Fail> {
    for (letter, count, key) in &KEYS_OF_LONG_NAMES {
        let name = repeated(rt.alloc(), letter, *count)?;
        let mut text = String::from_str(rt.alloc(), "/")?;
        text.push_str(name.as_str())?;
        assert!(rt; key_text(rt.alloc(), text.as_str())?.as_str() == *key);
    }
    Ok(())
}

#[test]
fn keys_of_deep_paths_are_those_of_hashlib(rt: HostRuntime) -> Result<(), Fail> {
    for (name, count, key) in &KEYS_OF_DEEP_PATHS {
        let mut part = String::from_str(rt.alloc(), "/")?;
        part.push_str(name)?;
        let text = repeated(rt.alloc(), part.as_str(), *count)?;
        assert!(rt; key_text(rt.alloc(), text.as_str())?.as_str() == *key);
    }
    Ok(())
}

#[test]
fn a_text_that_is_no_path_has_its_first_fault(rt: HostRuntime) {
    for (text, fault) in &FAULTS {
        assert!(rt; fault_of(rt.alloc(), text) == Some(*fault));
    }
}

/// Texts repeated to one that passes a limit, and the fault.
static LIMITS: [(&str, usize, PathFault); 3] = [
    ("/aaaaaaa", 512, PathFault::TooLong),
    ("/..", 65, PathFault::TooDeep),
    ("a/", 65, PathFault::TooDeep),
];

#[test]
fn the_limits_of_a_path_come_before_its_names(rt: HostRuntime) -> Result<(), Fail> {
    for (part, count, fault) in &LIMITS {
        let text = repeated(rt.alloc(), part, *count)?;
        assert!(rt; fault_of(rt.alloc(), text.as_str()) == Some(*fault));
    }
    Ok(())
}

#[test]
fn a_name_of_256_bytes_is_not_joined(rt: HostRuntime) -> Result<(), Fail> {
    let name = repeated(rt.alloc(), "a", 256)?;
    let path = RepoPath::read(rt.alloc(), "/a")?;
    let joined = path.join(rt.alloc(), name.as_str());
    assert!(rt; joined.err() == Some(PathFault::BadName(0)));
    Ok(())
}

#[test]
fn a_path_is_written_and_copied(rt: HostRuntime) -> Result<(), Fail> {
    let path = RepoPath::read(rt.alloc(), "/a/b/")?;
    assert!(rt; path.names().len() == 2);
    assert!(rt; path.text(rt.alloc())?.as_str() == "/a/b");
    assert!(rt; path.copy(rt.alloc())? == path);
    Ok(())
}

#[test]
fn a_path_covers_what_is_joined_to_it(rt: HostRuntime) -> Result<(), Fail> {
    let path = RepoPath::read(rt.alloc(), "/a/b")?;
    assert!(rt; path.join(rt.alloc(), "..").err() == Some(PathFault::BadName(0)));
    let longer = path.join(rt.alloc(), "c")?;
    assert!(rt; longer.text(rt.alloc())?.as_str() == "/a/b/c");
    assert!(rt; path.copy(rt.alloc())?.with_name(rt.alloc(), "c")? == longer);
    assert!(rt; longer.copy(rt.alloc())?.into_parent() == path);
    assert!(rt; path.covers(&longer) && !longer.covers(&path) && longer.overlaps(&path));
    assert!(rt; RepoPath::root(rt.alloc()).covers(&path) && path < longer);
    let beside = RepoPath::read(rt.alloc(), "/a/bc")?;
    assert!(rt; !path.overlaps(&beside));
    Ok(())
}

/// Texts of paths, their last names, and the MD5 of the text above, in hex.
static ENDS: [(&str, &str, &str); 3] = [
    ("", "", "00000000000000000000000000000000"),
    ("/d", "d", "d41d8cd98f00b204e9800998ecf8427e"),
    ("/a/b", "b", "0639767f3e9eaad729b54037a7e2abf5"),
];

/// Whether the path of these bytes has as many, this last name, and this key above it, in hex.
fn ends_so(alloc: Global, text: &str, last: &str, above: &str) -> Result<bool, Fail> {
    let Some(path) = RepoPath::of_bytes(alloc, text.as_bytes())? else {
        return Ok(false);
    };
    let key = hex::encode(alloc, &path.parent_key().0)?;
    Ok(path.text_len() == text.len() && path.last_name() == last && key.as_str() == above)
}

#[test]
fn a_path_has_a_last_name_and_a_key_above(rt: HostRuntime) -> Result<(), Fail> {
    for (text, last, above) in &ENDS {
        assert!(rt; ends_so(rt.alloc(), text, last, above)?);
    }
    assert!(rt; RepoPath::of_bytes(rt.alloc(), b"/a/")?.is_none());
    Ok(())
}

#[test]
fn the_order_of_texts_is_not_that_of_names(rt: HostRuntime) -> Result<(), Fail> {
    let below = RepoPath::read(rt.alloc(), "/a/x")?;
    let beside = RepoPath::read(rt.alloc(), "/a-b")?;
    assert!(rt; cmp_texts(&beside, &below) == Ordering::Less && below < beside);
    Ok(())
}

/// Texts that are no name.
static NO_NAMES: [&str; 4] = ["", "a b", "a/b", "é"];

#[test]
fn a_name_is_read_and_copied(rt: HostRuntime) -> Result<(), Fail> {
    let Some(name) = Name::read(rt.alloc(), "sw.example.org")? else {
        return Err(Fail::new("no name"));
    };
    assert!(rt; name.copy(rt.alloc())?.text() == "sw.example.org");
    for text in &NO_NAMES {
        assert!(rt; Name::read(rt.alloc(), text)?.is_none());
    }
    Ok(())
}

#[test]
fn a_name_has_255_bytes_at_most(rt: HostRuntime) -> Result<(), Fail> {
    let long = repeated(rt.alloc(), "a", 255)?;
    assert!(rt; Name::read(rt.alloc(), long.as_str())?.is_some());
    let too_long = repeated(rt.alloc(), "a", 256)?;
    assert!(rt; Name::read(rt.alloc(), too_long.as_str())?.is_none());
    Ok(())
}

/// Ids of no bytes, whose SHA-1 is as `sha1sum` says it: the kind, the text and the name of the file.
static IDS: [(Kind, &str, &str); 3] = [
    (
        Kind::Plain,
        "da39a3ee5e6b4b0d3255bfef95601890afd80709",
        "data/da/39a3ee5e6b4b0d3255bfef95601890afd80709",
    ),
    (
        Kind::Catalogue,
        "da39a3ee5e6b4b0d3255bfef95601890afd80709C",
        "data/da/39a3ee5e6b4b0d3255bfef95601890afd80709C",
    ),
    (
        Kind::History,
        "da39a3ee5e6b4b0d3255bfef95601890afd80709H",
        "data/da/39a3ee5e6b4b0d3255bfef95601890afd80709H",
    ),
];

/// Texts that are no id.
static NO_IDS: [&str; 6] = [
    "",
    "DA39A3EE5E6B4B0D3255BFEF95601890AFD80709",
    "da39a3ee5e6b4b0d3255bfef95601890afd8070",
    "da39a3ee5e6b4b0d3255bfef95601890afd80709X",
    "da39a3ee5e6b4b0d3255bfef95601890afd80709CC",
    "ga39a3ee5e6b4b0d3255bfef95601890afd80709",
];

#[test]
fn an_id_is_written_and_read(rt: HostRuntime) -> Result<(), Fail> {
    for (kind, text, file) in &IDS {
        let id = ObjectId::of(*kind, b"");
        assert!(rt; id.text(rt.alloc())?.as_str() == *text);
        assert!(rt; id.file_name(rt.alloc())?.as_str() == *file);
        assert!(rt; ObjectId::read(text) == Some(id));
        assert!(rt; ObjectId::read_file_name(file.as_bytes()) == Some(id));
    }
    Ok(())
}

#[test]
fn a_text_of_other_digits_is_no_id(rt: HostRuntime) {
    for text in &NO_IDS {
        assert!(rt; ObjectId::read(text).is_none());
    }
}

#[test]
fn a_target_is_read_and_copied(rt: HostRuntime) -> Result<(), Fail> {
    assert!(rt; Target::read(rt.alloc(), "a\0b")?.is_none());
    let long = repeated(rt.alloc(), "a", 4096)?;
    assert!(rt; Target::read(rt.alloc(), long.as_str())?.is_none());
    assert!(rt; Target::of_bytes(rt.alloc(), b"\xff")?.is_none());
    let Some(target) = Target::of_bytes(rt.alloc(), b"/a")? else {
        return Err(Fail::new("no target"));
    };
    assert!(rt; target.copy(rt.alloc())?.text() == "/a");
    Ok(())
}

/// Texts that are no token.
static NO_TOKENS: [&str; 8] = [
    "3-07",
    "3",
    "-7",
    "3-",
    "3-7-1",
    "+3-7",
    "3-7 ",
    "3-18446744073709551616",
];

#[test]
fn a_token_is_read_exactly(rt: HostRuntime) -> Result<(), Fail> {
    let token = Token {
        epoch: 3,
        number: 7,
    };
    assert!(rt; token.text(rt.alloc())?.as_str() == "3-7");
    assert!(rt; Token::read("3-7") == Some(token));
    for text in &NO_TOKENS {
        assert!(rt; Token::read(text).is_none());
    }
    Ok(())
}

#[test]
fn a_decimal_fits_64_bits(rt: HostRuntime) {
    assert!(rt; read_decimal(b"18446744073709551615") == Some(u64::MAX));
    assert!(rt; read_decimal(b"0") == Some(0));
    assert!(rt; read_decimal(b"\xff").is_none());
}

#[test]
fn fields_are_big_endian(rt: HostRuntime) {
    assert!(rt; split_u16(b"\x01\x02\x03").is_some_and(|field| field.0 == 0x0102));
    assert!(rt; split_u32(b"\x01\x02\x03\x04").is_some_and(|field| field.0 == 0x0102_0304));
    assert!(rt; split_u64(b"\0\0\0\0\0\0\x01\x02").is_some_and(|field| field.1.is_empty()));
    assert!(rt; split_u64(b"\0\0\0\0\0\0\x01").is_none());
    assert!(rt; read_u16('s', b"\x01\x02\x03").is_ok_and(|field| field.0 == 0x0102));
    assert!(rt; read_u32('s', b"\x01\x02\x03\x04").is_ok_and(|field| field.0 == 0x0102_0304));
    assert!(rt; read_u64('s', b"\0\0\0\0\0\0\x01").is_err_and(|fault| fault == 's'));
    assert!(rt; read_bytes('s', 2, b"abc").is_ok_and(|field| field.1.first() == Some(&b'c')));
    assert!(rt; read_array::<2, char>('s', b"abc").is_ok_and(|field| field.0 == *b"ab"));
    assert!(rt; read_length('s', 'l', 3, b"\0\x03abc").is_ok_and(|field| field.0 == 3));
    assert!(rt; read_length('s', 'l', 2, b"\0\x03abc").is_err_and(|fault| fault == 'l'));
}
