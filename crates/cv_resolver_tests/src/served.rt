//! What a peer serves.

use cv_base::{Bytes, Kind, Object, ObjectId};
use cv_cut::cut;
use cv_samples::{Modes, tree_of};
use hex::decode;
use std::alloc::Global;
use std::test::Fail;

/// The objects that a peer serves, and the id of the root's catalogue.
#[derive(Drop)]
pub(crate) struct Served {
    pub(crate) root: ObjectId,
    pub(crate) objects: Vec<Object>,
}

/// The id of a text.
pub(crate) fn id_of(text: &str) -> Result<ObjectId, Fail> {
    match ObjectId::read(text) {
        Some(id) => Ok(id),
        None => Err(Fail::new("no id")),
    }
}

/// The object that a word says.
fn object(alloc: Global, word: &str) -> Result<Object, Fail> {
    let Some((id, digits)) = word.split_once('=') else {
        return Err(Fail::new("no object"));
    };
    let bytes = Bytes::new(decode(alloc, digits)?);
    Ok(Object {
        id: id_of(id)?,
        bytes,
    })
}

/// Adds the content of each file of a text's tree.
fn add_contents(alloc: Global, objects: &mut Vec<Object>, text: &str) -> Result<(), Fail> {
    for word in text.split(' ') {
        if !word.is_empty() && !word.contains('=') && !word.ends_with('/') {
            let id = ObjectId::of(Kind::Plain, word.as_bytes());
            let bytes = Bytes::from_slice(alloc, word.as_bytes())?;
            objects.push(Object { id, bytes })?;
        }
    }
    Ok(())
}

impl Served {
    /// What is served of the tree that a text says.
    pub(crate) fn of_tree(alloc: Global, text: &str) -> Result<Served, Fail> {
        let made = cut(alloc, &tree_of(alloc, Modes::Same, text)?)?;
        let root = made.root;
        let mut objects = made.catalogues.into_vec();
        add_contents(alloc, &mut objects, text)?;
        Ok(Served { root, objects })
    }

    /// The root and the objects that words say.
    pub(crate) fn of_words(alloc: Global, words: &str) -> Result<Served, Fail> {
        let (root, rest) = words.split_once(' ').unwrap_or((words, ""));
        let mut objects = Vec::new(alloc);
        for word in rest.split(' ') {
            if !word.is_empty() {
                objects.push(object(alloc, word)?)?;
            }
        }
        let root = id_of(root)?;
        Ok(Served { root, objects })
    }

    /// The bytes under an id.
    pub(crate) fn bytes_of(&self, alloc: Global, id: ObjectId) -> Result<Option<Vec<u8>>, Fail> {
        for object in &self.objects {
            if object.id == id {
                return Ok(Some(Vec::from_slice(alloc, object.bytes.as_slice())?));
            }
        }
        Ok(None)
    }
}
