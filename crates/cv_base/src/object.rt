//! Objects.

use crate::bytes::Bytes;
use crate::id::ObjectId;

/// An object of the content-addressed store: its bytes, under the id that names it.
#[derive(Debug, Drop)]
pub struct Object {
    /// The id that names the object.
    pub id: ObjectId,
    /// The object's bytes.
    pub bytes: Bytes,
}
