//! The first revision: the tree of one directory.
ghost use Rattle.std.specs.Prelude.{◌≡◌, [], Some, IfOk};
ghost use Rattle.cv_base.specs.Moment.{IsMoment};
ghost use Rattle.cv_history.specs.Record.{IsRecord};
ghost use Rattle.cv_cut.specs.Cut.{cut_of};
ghost use Rattle.cv_base.specs.Objects.{AreNamed};
ghost use Rattle.cv_swap.specs.First.{first_record, first_revision, first_tree, first_batch};
ghost use Rattle.cv_swap.specs.Stands.{head_of, head_text, Publishes};

use crate::making::{Parts, make_parts};
use cv_base::{Attr, Name, NoMemory, RepoPath, Target, Token};
use cv_cut::{Cut, cut};
use cv_history::Record;
use cv_seal::Signer;
use cv_tree::Tree;
use std::alloc::Global;

/// The tree of one directory, made at a moment, as catalogues.
fn first_cut(alloc: Global, now: u64) -> Result<Cut, NoMemory>
    ensures { IfOk result (λ made. made ≡ cut_of (first_tree now)) }
{
    let tree = Tree::new(alloc, Attr::new_directory(now))?;
    match cut(alloc, &tree) {
        Ok(made) => Ok(made),
        // No two paths share a key there, and no catalogue is full.
        Err(_) => Err(NoMemory),
    }
}

/// A target without a byte.
fn no_target(alloc: Global) -> Result<Target, NoMemory>
    ensures { IfOk result (λ made. made ≡ []) }
{
    match Target::read(alloc, "")? {
        Some(made) => Ok(made),
        None => Err(NoMemory),
    }
}

/// The record of the first revision.
fn record_of(alloc: Global, root: [u8; 20], now: u64) -> Result<Record, NoMemory>
    requires { IsMoment now }
    ensures value { IfOk result (λ made. made ≡ first_record root now) }
    ensures limits { IfOk result IsRecord }
{
    Ok(Record {
        revision: 1,
        previous: [0; 20],
        root,
        offered: root,
        token: Token {
            epoch: 0,
            number: 0,
        },
        path: RepoPath::root(alloc),
        key: no_target(alloc)?,
        time: now,
        tag: no_target(alloc)?,
    })
}

/// The parts of the first revision, made at a moment.
pub fn first_parts<S: Signer>(
    alloc: Global,
    name: &Name,
    signer: &S,
    now: u64,
) -> Result<Parts, NoMemory>
    requires { IsMoment now }
    ensures batch { IfOk result (λ parts. parts.batch ≡ first_batch now) }
    ensures named { IfOk result (λ parts. AreNamed parts.batch) }
    ensures head { IfOk result (λ parts. parts.head ≡ head_of (first_revision now)) }
    ensures text { IfOk result (λ parts. parts.manifest ≡ head_text (S.seal_of signer.now) name.now parts.head) }
    ensures says { IfOk result (λ parts. Publishes name.now (S.is_seal signer.now) (Some parts.manifest) parts.head) }
{
    let Cut {
        root,
        size,
        catalogues,
    } = first_cut(alloc, now)?;
    let hash = root.hash;
    let next = record_of(alloc, hash, now)?;
    make_parts(alloc, name, signer, &next, size, catalogues.into_vec())
}
