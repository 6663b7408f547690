//! Why a client prints nothing.
ghost use Rattle.std.specs.Prelude.{◌≡◌, OnOk, IsErr};
ghost use Rattle.cv_base.specs.Counts.{HasCause};
ghost use Rattle.cv_base.specs.ObjectId.{id_text};
ghost use Rattle.cv_ports.specs.Streams.{onto, Wrote};
ghost use Rattle.cv_top.specs.Status.{look_text_of, served_text_of, object_text_of};

use cv_base::{ObjectId, digest_digits};
use cv_ports::{Failed, Sink, write_all};

/// Why there is no answer to a question about a path.
#[derive(Clone, Copy, Debug, PartialEq, Eq)]
pub enum LookFault {
    /// The path leads to nothing.
    NotFound,
    /// A name below a file, or the names of what is no directory.
    NotDirectory,
    /// The content of what is no file.
    NotFile,
    /// The way leads over more than 32 links.
    TooManyLinks,
}

impl LookFault {
    /// What the line on standard error says.
    pub(crate) fn text(self) -> &'static str
        ensures { result.now ≡ look_text_of self }
    {
        match self {
            LookFault::NotFound => "not found",
            LookFault::NotDirectory => "not a directory",
            LookFault::NotFile => "not a file",
            LookFault::TooManyLinks => "too many links",
        }
    }
}

/// What is wrong with what a server serves.
#[derive(Clone, Copy, Debug, PartialEq, Eq)]
pub enum ServedFault {
    /// The manifest is none, or isn't under the seal.
    BadManifest,
    /// The bytes under this id have another digest.
    BadObject(ObjectId),
    /// The bytes under this id have its digest, and are no catalogue of their place.
    BadCatalogue(ObjectId),
    /// There is no object of this id.
    NotServed(ObjectId),
}

impl ServedFault {
    /// What the line on standard error says.
    pub(crate) fn text(self) -> &'static str
        ensures { result.now ≡ served_text_of self }
    {
        match self {
            ServedFault::BadManifest => "bad manifest",
            ServedFault::BadObject(_) => "bad object ",
            ServedFault::BadCatalogue(_) => "bad catalogue ",
            ServedFault::NotServed(_) => "not served ",
        }
    }

    /// Writes the text of the object's id. It takes no memory.
    pub(crate) fn write_object<E: Sink>(self, errors: &mut E) -> Result<(), Failed>
        ensures whole { OnOk result (E.taken errors.new ≡ onto (E.taken errors.old) (object_text_of self)) }
        ensures part { Wrote (E.taken errors.old) (E.taken errors.new) (object_text_of self) }
        ensures cause { HasCause (E.faults errors.old) (E.faults errors.new) (IsErr result) }
    {
        match self {
            ServedFault::BadManifest => write_all(errors, b"".as_slice()),
            ServedFault::BadObject(id)
            | ServedFault::BadCatalogue(id)
            | ServedFault::NotServed(id) => write_id(errors, id),
        }
    }
}

/// Writes the text of an id: forty digits and its suffix.
fn write_id<E: Sink>(errors: &mut E, id: ObjectId) -> Result<(), Failed>
    ensures whole { OnOk result (E.taken errors.new ≡ onto (E.taken errors.old) (id_text id)) }
    ensures part { Wrote (E.taken errors.old) (E.taken errors.new) (id_text id) }
    ensures cause { HasCause (E.faults errors.old) (E.faults errors.new) (IsErr result) }
{
    write_all(errors, digest_digits(&id.hash).as_slice())?;
    write_all(errors, id.kind.suffix().as_bytes())
}
