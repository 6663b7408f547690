//! Catalogues that a catalogue names.
ghost use Rattle.std.specs.Prelude.{◌≡◌, ◌++◌, Contains, IfOk, OnOk};
ghost use Rattle.std.specs.List.{AllZip};
ghost use Rattle.cv_base.specs.Path.{overlap};
ghost use Rattle.cv_rows.specs.Catalogue.{IsCatalogue};
ghost use Rattle.cv_checkout.specs.Wanting.{IsNamed, toward};

use crate::wanted::Wanted;
use cv_base::{NoMemory, RepoPath};
use cv_rows::{Catalogue, Nested};
use std::alloc::Global;
use std::collections::VecDeque;

/// The catalogue that a nested entry names.
fn named(alloc: Global, catalogue: &Catalogue, nested: &Nested) -> Result<Wanted, NoMemory>
    requires rules { IsCatalogue catalogue.now }
    requires entry { Contains catalogue.now.nested nested.now }
    ensures { IfOk result (IsNamed catalogue.now nested.now) }
{
    let Some(row) = catalogue.row_at(&nested.path) else {
        unreachable!("each nested entry has a Transition row");
    };
    Ok(Wanted {
        path: nested.path.copy(alloc)?,
        hash: nested.hash,
        size: Some(nested.size),
        row: Some(row.copy(alloc)?),
    })
}

/// Whether a nested entry is on the way to a path, or at or below it.
fn is_toward(path: &RepoPath, nested: &Nested) -> bool
    ensures { result ≡ overlap path.now nested.now.path }
{
    path.overlaps(&nested.path)
}

/// Those that its nested entries on the way to a path name, and those at and below it, in the order of the entries.
pub fn named_toward(
    alloc: Global,
    catalogue: &Catalogue,
    path: &RepoPath,
) -> Result<Vec<Wanted>, NoMemory>
    requires { IsCatalogue catalogue.now }
    ensures { IfOk result (λ all. AllZip (IsNamed catalogue.now) (toward path.now catalogue.now) all.items) }
{
    let mut all = Vec::new(alloc);
    for nested in catalogue.nested() {
        if is_toward(path, nested) {
            all.push(named(alloc, catalogue, nested)?)?;
        }
    }
    Ok(all)
}

/// Puts some before those that are wanted.
pub fn put_first(wanted: &mut VecDeque<Wanted>, first: Vec<Wanted>) -> Result<(), NoMemory>
    ensures { OnOk result (wanted.new.items ≡ first.items ++ wanted.old.items) }
{
    let mut left = first;
    'left: while let Some(last) = left.pop() {
        wanted.push_front(last)?;
    }
    Ok(())
}
