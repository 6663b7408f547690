//! What the contracts can't say: values from outside, and that calls find memory.

use cv_base::Name;
use cv_manifest::{Head, Manifest, ManifestFault};
use cv_seal::{KeyedHash, Signer};
use sha1::Sha1;
use std::alloc::Global;
use std::process::Abort;
use std::test::Fail;

// Expected values are those of tools/manifest_vectors.py.

const ROOT: [u8; 20] = [
    0x30, 0x7a, 0xac, 0x20, 0xfe, 0x53, 0x91, 0xfa, 0xac, 0xd0, 0xea, 0x38, 0xf9, 0x58, 0x9f, 0xb7,
    0x97, 0xa3, 0x68, 0x5c,
];

const HISTORY: [u8; 20] = [
    0xaa, 0x64, 0x25, 0xaa, 0xb1, 0x8c, 0xc7, 0x17, 0xb2, 0x4c, 0x90, 0xd0, 0xa3, 0xe5, 0xaa, 0xcb,
    0xbd, 0xc0, 0x19, 0x16,
];

const WHOLE: &[u8] =
    b"C307aac20fe5391faacd0ea38f9589fb797a3685c\nB81\nRd41d8cd98f00b204e9800998ecf8427e\nD240\nS1\nNsw.example.org\nHaa6425aab18cc717b24c90d0a3e5aacbbdc01916\nT1700000000\n--\n3d103c065861638cbe1a3f5580ea0d71ef0cbfd2\n\x1c\x9d&s>8\xf0\xac4a\xfb\xc0W\xe3\xd7G\xea\x0fhi";

/// Where its seal begins.
const SEAL_AT: usize = 202;

const IN_ANY_ORDER: &[u8] =
    b"Xpassed over\nT1700000000\nHaa6425aab18cc717b24c90d0a3e5aacbbdc01916\nNsw.example.org\nS1\nD240\nRd41d8cd98f00b204e9800998ecf8427e\nB81\nC307aac20fe5391faacd0ea38f9589fb797a3685c\n- \n--\n141bf55816b7ab9bf035b59b3a57671cdbcad594\n\x09f\xb3\xd4y\x01\xc7O\xa2\x9fYe\xeb9d4r\x84\x9c\xf6";

/// The lines of the whole manifest, and no ninth one.
const LINES: [&[u8]; 9] = [
    b"C307aac20fe5391faacd0ea38f9589fb797a3685c\n",
    b"B81\n",
    b"Rd41d8cd98f00b204e9800998ecf8427e\n",
    b"D240\n",
    b"S1\n",
    b"Nsw.example.org\n",
    b"Haa6425aab18cc717b24c90d0a3e5aacbbdc01916\n",
    b"T1700000000\n",
    b"",
];

/// The lines of a manifest of which one has other bytes (the ninth stands behind them), and the fault.
const CHANGES: [(usize, &[u8], ManifestFault); 23] = [
    (1, b"", ManifestFault::Missing(b'C')),
    (5, b"", ManifestFault::Missing(b'S')),
    (8, b"\n", ManifestFault::BadLine(8)),
    (9, b"\n", ManifestFault::BadLine(9)),
    (9, b"C\n", ManifestFault::BadLine(9)),
    (
        9,
        b"C307aac20fe5391faacd0ea38f9589fb797a3685c\n",
        ManifestFault::Repeated(b'C'),
    ),
    (9, b"T1\n\n", ManifestFault::Repeated(b'T')),
    (
        1,
        b"C307AAC20FE5391FAACD0EA38F9589FB797A3685C\n",
        ManifestFault::BadLine(1),
    ),
    (
        1,
        b"C307aac20fe5391faacd0ea38f9589fb797a3685\n",
        ManifestFault::BadLine(1),
    ),
    (
        1,
        b"C307aac20fe5391faacd0ea38f9589fb797a3685c\r\n",
        ManifestFault::BadLine(1),
    ),
    (2, b"B081\n", ManifestFault::BadLine(2)),
    (2, b"B+81\n", ManifestFault::BadLine(2)),
    (2, b"B\n", ManifestFault::BadLine(2)),
    (2, b"B18446744073709551616\n", ManifestFault::BadLine(2)),
    (
        3,
        b"Rd41d8cd98f00b204e9800998ecf8427f\n",
        ManifestFault::BadLine(3),
    ),
    (4, b"D-1\n", ManifestFault::BadLine(4)),
    (5, b"S0\n", ManifestFault::BadLine(5)),
    (5, b"S18446744073709551616\n", ManifestFault::BadLine(5)),
    (6, b"N\n", ManifestFault::BadLine(6)),
    (6, b"Na b\n", ManifestFault::BadLine(6)),
    (6, b"N\xff\n", ManifestFault::BadLine(6)),
    (
        7,
        b"Haa6425aab18cc717b24c90d0a3e5aacbbdc01916H\n",
        ManifestFault::BadLine(7),
    ),
    (8, b"T4611686018427387904\n", ManifestFault::BadLine(8)),
];

/// Whole texts, and their fault.
const TEXTS: [(&[u8], ManifestFault); 11] = [
    (b"", ManifestFault::NoEnd),
    (b"--", ManifestFault::NoEnd),
    (b"--\n", ManifestFault::NoEnd),
    (
        b"--\r\nda39a3ee5e6b4b0d3255bfef95601890afd80709\n\x00\x00\x00\x00\x00\x00\x00\x00\x00\x00\x00\x00\x00\x00\x00\x00\x00\x00\x00\x00",
        ManifestFault::NoEnd,
    ),
    (
        b" --\nda39a3ee5e6b4b0d3255bfef95601890afd80709\n\x00\x00\x00\x00\x00\x00\x00\x00\x00\x00\x00\x00\x00\x00\x00\x00\x00\x00\x00\x00",
        ManifestFault::NoEnd,
    ),
    (
        b"--\nda39a3ee5e6b4b0d3255bfef95601890afd80709",
        ManifestFault::NoEnd,
    ),
    (
        b"--\nDA39A3EE5E6B4B0D3255BFEF95601890AFD80709\n\x00\x00\x00\x00\x00\x00\x00\x00\x00\x00\x00\x00\x00\x00\x00\x00\x00\x00\x00\x00",
        ManifestFault::NoEnd,
    ),
    (
        b"--\na39a3ee5e6b4b0d3255bfef95601890afd80709\n\x00\x00\x00\x00\x00\x00\x00\x00\x00\x00\x00\x00\x00\x00\x00\x00\x00\x00\x00\x00",
        ManifestFault::NoEnd,
    ),
    (
        b"--\n--\nda39a3ee5e6b4b0d3255bfef95601890afd80709\n\x00\x00\x00\x00\x00\x00\x00\x00\x00\x00\x00\x00\x00\x00\x00\x00\x00\x00\x00\x00",
        ManifestFault::NoEnd,
    ),
    (
        b"--\nda39a3ee5e6b4b0d3255bfef95601890afd80709\n",
        ManifestFault::BadSeal,
    ),
    (
        b"--\nda39a3ee5e6b4b0d3255bfef95601890afd80709\n\x00\x00\x00\x00\x00\x00\x00\x00\x00\x00\x00\x00\x00\x00\x00\x00\x00\x00\x00\x00",
        ManifestFault::BadSeal,
    ),
];

const OF_NOTHING: [u8; 20] = [
    0xda, 0x39, 0xa3, 0xee, 0x5e, 0x6b, 0x4b, 0x0d, 0x32, 0x55, 0xbf, 0xef, 0x95, 0x60, 0x18, 0x90,
    0xaf, 0xd8, 0x07, 0x09,
];

const OF_NEWLINE: [u8; 20] = [
    0xad, 0xc8, 0x3b, 0x19, 0xe7, 0x93, 0x49, 0x1b, 0x1c, 0x6e, 0xa0, 0xfd, 0x8b, 0x46, 0xcd, 0x9f,
    0x32, 0xe5, 0x92, 0xfc,
];

fn signer(alloc: Global) -> Result<KeyedHash, Fail> {
    Ok(KeyedHash::new(String::from_str(alloc, "seal")?))
}

/// Sees that this is the manifest of the vectors.
fn see_manifest(rt: &impl Abort, manifest: &Manifest) {
    assert_eq!(rt; manifest.name.text(), "sw.example.org");
    assert_eq!(rt; manifest.ttl, 240);
    let head = Head {
        revision: 1,
        root: ROOT,
        size: 81,
        history: HISTORY,
        time: 1_700_000_000,
    };
    assert_eq!(rt; manifest.head, head);
}

/// The fault of bytes under the secret of the vectors.
fn fault_of(alloc: Global, bytes: &[u8]) -> Result<Option<ManifestFault>, Fail> {
    Ok(Manifest::read(alloc, bytes, &signer(alloc)?).err())
}

/// The lines under their digest and its seal.
fn sealed(alloc: Global, lines: &[u8]) -> Result<Vec<u8>, Fail> {
    let digits = cv_base::digest_digits(&Sha1::digest(lines));
    let seal = signer(alloc)?.sign(alloc, &digits)?;
    let mut text = Vec::from_slice(alloc, lines)?;
    text.extend_from_slice(b"--\n")?;
    text.extend_from_slice(&digits)?;
    text.extend_from_slice(b"\n")?;
    text.extend_from_slice(seal.as_slice())?;
    Ok(text)
}

/// The lines of the vectors, with other bytes in place of the line of this number.
fn changed(alloc: Global, number: usize, bytes: &[u8]) -> Result<Vec<u8>, Fail> {
    let mut lines = Vec::new(alloc);
    for (i, line) in LINES.iter().enumerate() {
        lines.extend_from_slice(if i + 1 == number { bytes } else { line })?;
    }
    Ok(lines)
}

#[test]
fn a_manifest_is_written_and_read(rt: HostRuntime) -> Result<(), Fail> {
    let Some(name) = Name::read(rt.alloc(), "sw.example.org")? else {
        return Err(Fail::new("no name"));
    };
    let head = Head {
        revision: 1,
        root: ROOT,
        size: 81,
        history: HISTORY,
        time: 1_700_000_000,
    };
    let manifest = Manifest {
        name,
        ttl: 240,
        head,
    };
    let signer = signer(rt.alloc())?;
    let bytes = manifest.write(rt.alloc(), &signer)?;
    assert_eq!(rt; bytes.as_slice(), WHOLE);
    see_manifest(&rt, &Manifest::read(rt.alloc(), WHOLE, &signer)?);
    see_manifest(&rt, &Manifest::read(rt.alloc(), IN_ANY_ORDER, &signer)?);
    Ok(())
}

#[test]
fn each_fault_is_told(rt: HostRuntime) -> Result<(), Fail> {
    for (text, fault) in &TEXTS {
        assert_eq!(rt; fault_of(rt.alloc(), text)?, Some(*fault));
    }
    for (number, bytes, fault) in &CHANGES {
        let text = sealed(rt.alloc(), &changed(rt.alloc(), *number, bytes)?)?;
        assert_eq!(rt; fault_of(rt.alloc(), &text)?, Some(*fault));
    }
    Ok(())
}

#[test]
fn a_manifest_that_is_cut_at_any_byte_is_none(rt: HostRuntime) -> Result<(), Fail> {
    for size in 0..WHOLE.len() {
        let fault = if size < SEAL_AT {
            ManifestFault::NoEnd
        } else {
            ManifestFault::BadSeal
        };
        assert_eq!(rt; fault_of(rt.alloc(), &WHOLE[..size])?, Some(fault));
    }
    Ok(())
}

#[test]
fn a_changed_seal_or_line_is_told(rt: HostRuntime) -> Result<(), Fail> {
    let mut text = Vec::from_slice(rt.alloc(), &WHOLE[..221])?;
    text.push(b'j')?;
    assert_eq!(rt; fault_of(rt.alloc(), &text)?, Some(ManifestFault::BadSeal));
    let differs = ManifestFault::HashDiffers {
        stated: OF_NOTHING,
        computed: OF_NEWLINE,
    };
    let bytes = b"\n--\nda39a3ee5e6b4b0d3255bfef95601890afd80709\n";
    assert_eq!(rt; fault_of(rt.alloc(), bytes)?, Some(differs));
    Ok(())
}
