//! What a line of the header says of an object.

use cv_base::ObjectId;

/// An object's line in the header: its id, and the bytes of its content.
#[derive(Clone, Copy, Debug, PartialEq, Eq)]
pub struct Entry {
    pub id: ObjectId,
    pub size: u32,
}
