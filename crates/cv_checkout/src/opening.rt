//! Bytes that are given for a catalogue.
ghost use Rattle.std.specs.Prelude.{◌≡◌, ◌↔◌, IfSome, IsTrue, length};
ghost use Rattle.cv_checkout.specs.OpeningInner.{IsServed, Opens};

use crate::fault::CheckoutFault;
use crate::wanted::{Wanted, id_of};
use cv_base::{Bytes, ObjectId};
use cv_cut::opened;
use cv_rows::Catalogue;
use sha1::Sha1;
use std::alloc::Global;

/// The bytes that were given for an id, of its digest. It takes no memory.
pub fn served(id: ObjectId, given: Option<Bytes>) -> Result<Bytes, CheckoutFault>
    ensures { IsServed id given result }
{
    let Some(bytes) = given else {
        return Err(CheckoutFault::NotServed(id));
    };
    let found = Sha1::digest(bytes.as_slice());
    if found != id.hash {
        return Err(CheckoutFault::BadObject { id, found });
    }
    Ok(bytes)
}

/// Whether bytes have the size that is stated of a catalogue, if one is.
fn has_size(wanted: &Wanted, bytes: &[u8]) -> bool
    ensures { IsTrue result ↔ IfSome wanted.now.size (λ n. length bytes.now ≡ n) }
{
    match wanted.size {
        Some(size) => bytes.len() as u64 == size,
        None => true,
    }
}

/// The catalogue that is wanted, of bytes of its digest.
pub fn open(alloc: Global, wanted: &Wanted, bytes: &[u8]) -> Result<Catalogue, CheckoutFault>
    ensures { Opens wanted.now bytes.now result }
{
    if !has_size(wanted, bytes) {
        return Err(CheckoutFault::BadCatalogue(id_of(wanted)));
    }
    match opened(alloc, bytes, &wanted.path, wanted.row.as_ref())? {
        Some(catalogue) => Ok(catalogue),
        None => Err(CheckoutFault::BadCatalogue(id_of(wanted))),
    }
}
