//! Contents of files, each once.
ghost use Rattle.std.specs.Prelude.{◌≡◌, [], IfOk};
ghost use Rattle.sha1.specs.Sha1.{sha1};
ghost use Rattle.cv_base.specs.ObjectId.{object_id};
ghost use Rattle.cv_base.specs.declared.id.Kind.TheVariants.{Plain};
ghost use Rattle.cv_overlay.specs.FoundInner.{with_content};

use cv_base::{Items, NoMemory, Object};
use std::alloc::Global;
use std::collections::BTreeSet;
use std::marker::Model;

/// Contents of files, each once by its id, in the order in which they came.
#[derive(Drop)]
pub(crate) struct Contents {
    objects: Vec<Object>,
    known: BTreeSet<[u8; 20]>,
}

impl Model for Contents {
    ghost use Rattle.std.specs.Prelude.{◌≡◌, List, ℕ};
    ghost use Rattle.std.specs.BTreeSet.{contains};
    ghost use Rattle.cv_base.specs.BytesOrder.{bytes_cmp};
    ghost use Rattle.cv_base.specs.declared.object.Object.{Object};
    ghost use Rattle.cv_overlay.specs.FoundInner.{has_hash};

    ghost Value = { List Object };

    ghost view = { λ c. c.objects.items };

    ghost invariant = { λ c. (hash : List ℕ) → contains bytes_cmp c.known hash ≡ has_hash c.objects.items hash };
}

impl Contents {
    /// No content.
    pub(crate) fn new(alloc: Global) -> Contents
        ensures { result ≡ [] }
    {
        Contents {
            objects: Vec::new(alloc),
            known: BTreeSet::new(alloc),
        }
    }

    /// One content more, of which the id is given, unless one of its hash is there.
    #[tactic(auto, using(crate::proofs::Kept::known_more, crate::proofs::Kept::content_same))]
    pub(crate) fn with(self, object: Object) -> Result<Contents, NoMemory>
        requires { object.id ≡ object_id (sha1 object.bytes) Plain }
        ensures { IfOk result (λ made. made ≡ with_content self object.bytes) }
    {
        let Contents { objects, known } = self;
        let mut objects = objects;
        let mut known = known;
        if !known.insert(object.id.hash)? {
            return Ok(Contents { objects, known });
        }
        objects.push(object)?;
        Ok(Contents { objects, known })
    }

    /// The contents, given back without taking memory.
    pub(crate) fn into_objects(self) -> Items<Object>
        ensures { result ≡ self }
    {
        Items::new(self.objects)
    }
}
