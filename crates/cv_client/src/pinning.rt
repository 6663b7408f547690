//! The manifest of a served repository.
ghost use Rattle.std.specs.Prelude.{◌≡◌, ℕ, List, Some, Ok};
ghost use Rattle.cv_base.specs.Counts.{HasCause, Rose};
ghost use Rattle.cv_base.specs.Unless.{IsUnless};
ghost use Rattle.cv_manifest.specs.Manifest.{Says, manifest_name};
ghost use Rattle.cv_manifest.specs.declared.manifest.Manifest.{Manifest as TheManifest};
ghost use Rattle.cv_client.specs.Asking.{AsksFirst};
ghost use Rattle.cv_client.specs.Pin.{FetchesManifest, Pins, client_at};
ghost use Rattle.cv_client.specs.Served.{Files, ServedBy, FetchesServed};
ghost use Rattle.cv_client.specs.declared.ask_fault.AskFault.TheVariants.{LinkFailed, NoMemory};

use crate::ask_fault::AskFault;
use crate::fetching::fetch;
use crate::url::Url;
use cv_manifest::laws::{a_manifest_shows_no_fault, a_text_says_one_manifest};
use cv_manifest::{MANIFEST_NAME, Manifest};
use cv_ports::Dial;
use cv_resolver::Resolver;
use cv_seal::Signer;
use std::alloc::Global;

/// The most catalogues that a client keeps.
pub const CATALOGUES: usize = 64;

/// Fetches the manifest of a repository, and reads it under a signer.
pub fn fetch_manifest<N: Dial, S: Signer>(
    alloc: Global,
    dial: &mut N,
    url: &Url,
    signer: &S,
) -> Result<Manifest, AskFault>
    ensures fetches { FetchesManifest (S.is_seal signer.now) url.now (N.came dial.old) (N.came dial.new) result }
    ensures asks { AsksFirst N.came N.looks dial.old dial.new }
    ensures cause { HasCause (N.faults dial.old) (N.faults dial.new) (result ≡ Err LinkFailed) }

    // Where each link that came back sent what the server has, which is a manifest under its seal: that is what is fetched, unless
    // a link failed.
    ensures completes { FetchesServed (S.is_seal signer.now) url.now (N.came dial.old) (N.came dial.new) result }
{
    a_text_says_one_manifest();
    a_manifest_shows_no_fault();
    match fetch(alloc, dial, url, MANIFEST_NAME) {
        Ok(Some(text)) => match Manifest::read(alloc, text.as_slice(), signer) {
            Ok(manifest) => Ok(manifest),
            Err(fault) => Err(AskFault::of_manifest(fault)),
        },
        Ok(None) => Err(AskFault::BadReply),
        Err(fault) => Err(AskFault::of_exchange(fault)),
    }
}

/// A client that is pinned at the head of the manifest that is served, whatever name it carries.
pub fn pin<N: Dial, S: Signer>(
    alloc: Global,
    dial: &mut N,
    url: &Url,
    signer: &S,
) -> Result<Resolver, AskFault>
    ensures pins { Pins (S.is_seal signer.now) url.now (N.came dial.old) (N.came dial.new) result }
    ensures asks { AsksFirst N.came N.looks dial.old dial.new }
    ensures cause { HasCause (N.faults dial.old) (N.faults dial.new) (result ≡ Err LinkFailed) }

    // Where no fault was counted, and each link that came back sent what the server has, which is a manifest under its seal: that is
    // where the client is pinned.
    ensures completes { (Rose 1 (N.faults dial.old) (N.faults dial.new) → ⊥) → (files : Files)
        → ServedBy url.now files (N.came dial.old) (N.came dial.new) → (text : List ℕ) (m : TheManifest) → files manifest_name ≡ Some text
        → Says (S.is_seal signer.now) text m → IsUnless NoMemory result (Ok (client_at m)) }
{
    let manifest = fetch_manifest(alloc, dial, url, signer)?;
    Ok(Resolver::new(alloc, manifest, CATALOGUES)?)
}
