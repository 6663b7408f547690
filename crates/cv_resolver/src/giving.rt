//! What is given for the object that a question wants.
ghost use Rattle.std.specs.Prelude.{◌≡◌, ℕ, List, [], ◌∷◌, Some, IfOk, IsSomeAnd, MatchOption, option_map, option_to_list};
ghost use Rattle.sha1.specs.Sha1.{sha1};
ghost use Rattle.cv_tree.specs.Tree.{Nodes, IsTree};
ghost use Rattle.cv_rows.specs.Catalogue.{Contents};
ghost use Rattle.cv_cut.specs.Catalogues.{cat, contents_of, Fits};
ghost use Rattle.cv_cut.specs.Reached.{Decodes};
ghost use Rattle.cv_resolver.specs.Spot.{IsLevel, place_of};
ghost use Rattle.cv_resolver.specs.Kept.{AreOwn, kept_bytes};
ghost use Rattle.cv_resolver.specs.Stage.{wanted_by, IsStage};
ghost use Rattle.cv_resolver.specs.Giving.{TakesCatalogue, Takes};
ghost use Rattle.cv_resolver.specs.declared.stage.Stage.TheVariants as stage;

use crate::cache::Catalogues;
use crate::found::{ClientFault, Found};
use crate::progress::walk_on;
use crate::question::Question;
use crate::spot::Level;
use crate::stage::{Stage, wanted};
use crate::walk::Walk;
use cv_base::{Bytes, Kind, NoMemory, ObjectId};
use cv_cut::opened;
use cv_rows::Catalogue;
use sha1::Sha1;
use std::alloc::Global;

/// The catalogue of a level, of the bytes that were given for it. None where they don't decode at its place.
fn open_level(alloc: Global, level: &Level, bytes: &[u8]) -> Result<Option<Catalogue>, NoMemory>
    requires { sha1 bytes.now ≡ level.now.hash }
    ensures decodes { IfOk result (λ found. MatchOption found
        ((c : Contents) → Decodes (place_of level.now) bytes.now c → ⊥) (Decodes (place_of level.now) bytes.now)) }

    // In a tree it is the catalogue of the cut, unless other bytes share its digest.
    ensures own { (t : Nodes) → IsLevel t level.now → AreOwn t (bytes.now ∷ [])
        → IfOk result (λ found. IsSomeAnd found (λ c. c ≡ contents_of t level.now.path)) }
{
    opened(alloc, bytes, &level.path, level.row.as_ref())
}

/// How a walk goes on where bytes of the right digest were given for its catalogue.
fn take_catalogue(
    alloc: Global,
    cache: &mut Catalogues,
    repository: &str,
    question: &Question,
    walk: Walk,
    bytes: &[u8],
) -> Stage
    requires { sha1 bytes.now ≡ walk.spot.level.hash }
    ensures stage { (t : Nodes) → IsTree t → Fits t → AreOwn t (kept_bytes cache.old) → AreOwn t (bytes.now ∷ [])
        → IsStage repository.now t question.now (stage.Walks walk) → IsStage repository.now t question.now result }
    ensures taken { TakesCatalogue repository.now question.now cache.old walk bytes.now cache.new result }
{
    match open_level(alloc, &walk.spot.level, bytes) {
        Ok(Some(catalogue)) => match cache.put(walk.spot.level.hash, catalogue) {
            Ok(()) => walk_on(alloc, cache, repository, question, walk),
            Err(fault) => Stage::from(fault),
        },
        Ok(None) => Stage::Ends(Err(ClientFault::BadCatalogue(ObjectId {
            hash: walk.spot.level.hash,
            kind: Kind::Catalogue,
        }))),
        Err(fault) => Stage::from(fault),
    }
}

/// The bytes that were given, if any.
pub fn held(bytes: Option<Vec<u8>>) -> Option<Bytes>
    ensures { result ≡ option_map (λ v. v.items) bytes }
{
    match bytes {
        Some(bytes) => Some(Bytes::new(bytes)),
        None => None,
    }
}

/// How a question goes on by what is given for the object that it wants.
pub fn take(
    alloc: Global,
    cache: &mut Catalogues,
    repository: &str,
    question: &Question,
    was: Stage,
    id: ObjectId,
    given: Option<Bytes>,
) -> Stage
    requires { wanted_by was ≡ Some id }
    ensures stage { (t : Nodes) → IsTree t → Fits t → AreOwn t (kept_bytes cache.old) → AreOwn t (option_to_list given)
        → IsStage repository.now t question.now was → IsStage repository.now t question.now result }
    ensures takes { Takes repository.now question.now cache.old was given cache.new result }
{
    let Some(bytes) = given else {
        return Stage::Ends(Err(ClientFault::NotServed(id)));
    };
    let found = Sha1::digest(bytes.as_slice());
    if found != id.hash {
        return Stage::Ends(Err(ClientFault::BadObject { id, found }));
    }
    match was {
        Stage::Walks(walk) => {
            take_catalogue(alloc, cache, repository, question, walk, bytes.as_slice())
        }
        Stage::Reads(_) => Stage::Ends(Ok(Found::Bytes(bytes))),
        Stage::Ends(_) => unreachable!("nothing is wanted"),
    }
}
