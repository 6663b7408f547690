//! What a line of the table prints.

use crate::releases::peer::Peer;
use crate::releases::served_dial::{Exchange, ServedDial};
use cv_base::{NoMemory, digest_text};
use sha1::Sha1;
use std::alloc::Global;
use std::test::Fail;

/// The requests for the live leases and for the manifest.
const STANDING: &[u8] =
    b"GET /api/v1/leases HTTP/1.1\r\nHost: x\r\n\r\nGET /cvmfs/sw.example.org/.cvmfspublished HTTP/1.1\r\nHost: x\r\n\r\n";

/// The digests of all that links took, and of all that came on them.
fn digests(alloc: Global, exchanges: &[Exchange]) -> Result<([u8; 20], [u8; 20]), NoMemory> {
    let mut took = Sha1::new();
    let mut came = Sha1::new();
    for exchange in exchanges {
        took.update(exchange.took());
        came.update(exchange.came(alloc)?.as_slice());
    }
    Ok((took.finalize(), came.finalize()))
}

/// The texts of these digests.
fn links_text(alloc: Global, exchanges: &[Exchange]) -> Result<String, Fail> {
    let (took, came) = digests(alloc, exchanges)?;
    let (took, came) = (digest_text(alloc, &took)?, digest_text(alloc, &came)?);
    Ok(format!(in alloc; "{took} {came}")?)
}

/// The text of the digest of what a peer replies to one who asks for what stands.
fn standing_text<P: Peer>(alloc: Global, peer: &mut P) -> Result<String, Fail> {
    let standing = Sha1::digest(peer.reply(STANDING)?.as_slice());
    Ok(digest_text(alloc, &standing)?)
}

/// How a publication ended, how many links it dialled, the digests of what went over them, and that of what stands then.
pub(crate) fn publication_text<P: Peer>(
    alloc: Global,
    end: &str,
    dial: &mut ServedDial<P>,
) -> Result<String, Fail> {
    let standing = standing_text(alloc, dial.peer()?)?;
    let links = links_text(alloc, dial.exchanges())?;
    let dials = dial.dials();
    Ok(format!(in alloc; "{end} links {dials} {links} {standing}")?)
}
