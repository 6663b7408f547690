//! The manifest.
ghost use Rattle.std.specs.Prelude.{◌≡◌, ◌≢◌, ◌≤◌, ℕ, List, Ok, Err, IfOk, IfErr, IsTrue, MatchResult, OnOk, string_bytes};
ghost use Rattle.cv_base.specs.Name.{is_name};
ghost use Rattle.cv_base.specs.Unless.{IsUnless};
ghost use Rattle.cv_base.specs.declared.limits.TheConstants.{LAST_TIME};
ghost use Rattle.cv_manifest.specs.SplitInner.{IsSplit};
ghost use Rattle.cv_manifest.specs.Lines.{ended};
ghost use Rattle.cv_manifest.specs.Manifest.{manifest, InRange, lines_of, sealed_text, Says};
ghost use Rattle.cv_manifest.specs.Fault.{Shows};
ghost use Rattle.cv_manifest.specs.declared.manifest_fault.ManifestFault.TheVariants as faults;

use crate::fields::Fields;
use crate::head::Head;
use crate::manifest_fault::ManifestFault;
use crate::parts::Parts;
use crate::values::ROOT_KEY;
use cv_base::{Name, NoMemory, digest_digits, digest_text};
use cv_seal::Signer;
use sha1::Sha1;
use std::alloc::Global;

/// The name under which a repository publishes its manifest.
pub const MANIFEST_NAME: &str = ".cvmfspublished";

/// How long a client may take the head of a manifest that is written here for the newest one, in seconds.
pub const TIME_TO_LIVE: u64 = 240;

/// A repository's newest head, as the repository publishes it.
#[derive(Debug, Drop)]
pub struct Manifest {
    /// The repository's name.
    pub name: Name,
    /// How long a client may take the head for the newest one, in seconds.
    pub ttl: u64,
    /// The newest head.
    pub head: Head,
}

impl Manifest {
    ghost use Rattle.cv_manifest.specs.Manifest.{manifest_text};

    /// The manifest that bytes say under a signer, or their first fault. Lines come in any order, and
    /// those that begin with another letter are passed over.
    pub fn read<S: Signer>(
        alloc: Global,
        bytes: &[u8],
        signer: &S,
    ) -> Result<Manifest, ManifestFault>
        ensures value { IfOk result (λ m. Says (S.is_seal signer.now) bytes.now m) }
        ensures found { (m : _) → Says (S.is_seal signer.now) bytes.now m → IsUnless faults.NoMemory result (Ok m) }
        ensures fault { IfErr result (λ fault. Shows (S.is_seal signer.now) bytes.now fault) }
        ensures refused { (fault : _) → Shows (S.is_seal signer.now) bytes.now fault → fault ≢ faults.NoMemory
            → IsUnless faults.NoMemory result (Err fault) }
    {
        match Parts::split(bytes) {
            Some(parts) => read_parts(alloc, &parts, signer),
            None => Err(ManifestFault::NoEnd),
        }
    }

    /// The bytes of the manifest under a signer: its fields as lines, and the seal of the digest of
    /// these.
    pub fn write<S: Signer>(&self, alloc: Global, signer: &S) -> Result<Vec<u8>, NoMemory>
        requires revision { 1 ≤ self.now.head.revision }
        requires time { self.now.head.time ≤ LAST_TIME }
        ensures text { IfOk result (λ bytes. bytes.items ≡ manifest_text (S.seal_of signer.now) self.now) }
        ensures reads_back { IfOk result (λ bytes. Says (S.is_seal signer.now) bytes.items self.now) }
    {
        let lines = write_lines(alloc, &self.name, self.ttl, self.head)?;
        add_seal(alloc, lines.into_bytes(), signer)
    }
}

/// The lines of a manifest's fields.
fn write_lines(alloc: Global, name: &Name, ttl: u64, head: Head) -> Result<String, NoMemory>
    ensures text { IfOk result (λ text. string_bytes text ≡ ended (lines_of (manifest name.now ttl head))) }
    ensures in_range { InRange (manifest name.now ttl head) }
    ensures name { OnOk result (IsTrue (is_name name.now)) }
{
    let Head {
        revision,
        root,
        size,
        history,
        time,
    } = head;
    let root = digest_text(alloc, &root)?;
    let history = digest_text(alloc, &history)?;
    let name = name.text();
    Ok(format!(in alloc;
        "C{root}\nB{size}\nR{ROOT_KEY}\nD{ttl}\nS{revision}\nN{name}\nH{history}\nT{time}\n"
    )?)
}

/// The lines of a manifest, the line `--`, the digits of their digest as a line, and the seal of these
/// digits.
fn add_seal<S: Signer>(alloc: Global, lines: Vec<u8>, signer: &S) -> Result<Vec<u8>, NoMemory>
    ensures { IfOk result (λ bytes. bytes.items ≡ sealed_text (S.seal_of signer.now) lines.items) }
{
    let mut out = lines;
    let digits = digest_digits(&Sha1::digest(&out));
    let seal = signer.sign(alloc, &digits)?;
    out.extend_from_slice(b"--\n")?;
    out.extend_from_slice(&digits)?;
    out.extend_from_slice(b"\n")?;
    out.extend_from_slice(seal.as_slice())?;
    Ok(out)
}

/// The manifest that a text says, by its parts.
fn read_parts<S: Signer>(
    alloc: Global,
    parts: &Parts<'_>,
    signer: &S,
) -> Result<Manifest, ManifestFault>
    ensures { (text : List ℕ) → IsSplit text parts.now.lines.now parts.now.stated parts.now.seal.now
        → MatchResult result (λ m. Says (S.is_seal signer.now) text m) (λ fault. Shows (S.is_seal signer.now) text fault) }
{
    let computed = Sha1::digest(parts.lines);
    if parts.stated != computed {
        return Err(ManifestFault::HashDiffers {
            stated: parts.stated,
            computed,
        });
    }
    if !signer.verifies(&digest_digits(&parts.stated), parts.seal) {
        return Err(ManifestFault::BadSeal);
    }
    Fields::read(alloc, parts.lines)?.into_manifest()
}
