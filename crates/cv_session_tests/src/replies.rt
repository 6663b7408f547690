//! Replies of a gate, by words.

use cv_base::{Kind, NoMemory, ObjectId, RepoPath, Token};
use cv_gate::Reply;
use std::alloc::Global;

/// The object that replies name.
const OBJECT: ObjectId = ObjectId {
    hash: [0xab; 20],
    kind: Kind::Catalogue,
};

/// The path of a text.
fn path(alloc: Global, text: &str) -> Result<RepoPath, NoMemory> {
    RepoPath::read(alloc, text).map_err(|_fault| NoMemory)
}

/// The reply that says no more than a word.
fn plain(word: &str) -> Option<Reply> {
    match word {
        "stored" => Some(Reply::Stored),
        "cancelled" => Some(Reply::Cancelled),
        "bad_path" => Some(Reply::BadPath),
        "too_many_leases" => Some(Reply::TooManyLeases),
        "no_parent" => Some(Reply::NoParent),
        "invalid_token" => Some(Reply::InvalidToken),
        "wrong_key" => Some(Reply::WrongKey),
        "store_failed" => Some(Reply::StoreFailed),
        "journal_full" => Some(Reply::JournalFull),
        "revisions_full" => Some(Reply::RevisionsFull),
        _ => None,
    }
}

/// The reply that names an object, a revision or a path.
fn detailed(alloc: Global, word: &str) -> Result<Reply, NoMemory> {
    match word {
        "collision" => Ok(Reply::Collision(OBJECT)),
        "missing_object" => Ok(Reply::MissingObject(OBJECT)),
        "bad_catalogue" => Ok(Reply::BadCatalogue(OBJECT)),
        "stale_base" => Ok(Reply::StaleBase { revision: 3 }),
        "tag_taken" => Ok(Reply::TagTaken { revision: 3 }),
        "catalogue_full" => Ok(Reply::CatalogueFull(path(alloc, "/b")?)),
        "damaged" => Ok(Reply::Damaged {
            id: OBJECT,
            found: [0; 20],
        }),
        "path_collision" => Ok(Reply::PathCollision {
            first: path(alloc, "/b")?,
            second: path(alloc, "/a")?,
        }),
        _ => Err(NoMemory),
    }
}

/// The reply of a word: want of memory for a word that is none.
pub(crate) fn reply_of(alloc: Global, word: &str) -> Result<Reply, NoMemory> {
    let token = Token {
        epoch: 1,
        number: 2,
    };
    match word {
        "granted" => Ok(Reply::Granted {
            token,
            revision: 3,
            root: [0xab; 20],
        }),
        "committed" => Ok(Reply::Committed {
            revision: 3,
            root: [0xab; 20],
        }),
        "path_busy" => Ok(Reply::PathBusy {
            token,
            remaining: 1,
        }),
        _ => match plain(word) {
            Some(reply) => Ok(reply),
            None => detailed(alloc, word),
        },
    }
}
