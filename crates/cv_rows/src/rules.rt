//! The rules that rows and nested entries keep, and the first that is broken.
ghost use Rattle.std.specs.Prelude.{◌≡◌, ℕ, ◌<◌, ◌≤◌, List, Ok, length, MatchResult};
ghost use Rattle.std.specs.List.{HoldsAt, All};
ghost use Rattle.cv_base.specs.declared.limits.TheConstants.{OBJECT_LIMIT};
ghost use Rattle.cv_rows.specs.Catalogue.{IsMarkedWell};
ghost use Rattle.cv_rows.specs.Places.{IsRoot};
ghost use Rattle.cv_rows.specs.ParentsInner.{IsPlacing};
ghost use Rattle.cv_rows.specs.Faults.{AreOrdered, AllStand, AllFit, IsRuleFault, IsFirstFault};
ghost use Rattle.cv_rows.specs.FaultsInner.{KeepsRules, Checks};
ghost use Rattle.cv_rows.specs.Reading.{entries_of};
ghost use Rattle.cv_rows.specs.declared.limits.TheConstants.{ROW_LIMIT};

use crate::markers::first_marked_badly;
use crate::nested::Nested;
use crate::nested_list::{first_unlisted, first_unnamed};
use crate::order::{nested_disorder, row_disorder};
use crate::places::{first_orphan, parents, root_position};
use crate::reading::{Entries, read_file};
use crate::row::Row;
use crate::row_fault::RowFault;
use crate::spelling::first_misplaced;
use cv_base::RepoPath;
use std::alloc::Global;

/// Checks that rows and nested entries are in order.
fn check_order(rows: &[Row], nested: &[Nested]) -> Result<(), RowFault>
    requires rows { length rows.now ≤ ROW_LIMIT }
    requires nested { length nested.now ≤ OBJECT_LIMIT }
    ensures { (at : List (List ℕ)) → Checks (AreOrdered rows.now nested.now) (IsRuleFault at rows.now nested.now) result }
{
    if let Some(row) = row_disorder(rows) {
        return Err(RowFault::Order(row));
    }
    match nested_disorder(nested) {
        Some(entry) => Err(RowFault::Order(rows.len() + entry)),
        None => Ok(()),
    }
}

/// Checks rows whose directories are marked well, and nested entries.
fn check_nested(
    alloc: Global,
    at: &RepoPath,
    rows: &[Row],
    root: usize,
    parents: &[usize],
    nested: &[Nested],
) -> Result<(), RowFault>
    requires ordered { AreOrdered rows.now nested.now }
    requires placing { IsPlacing at.now rows.now root parents.now }
    requires stand { AllStand at.now rows.now }
    requires fit { AllFit at.now rows.now }
    requires marked { All (IsMarkedWell at.now rows.now) rows.now }
    ensures { Checks (KeepsRules at.now rows.now nested.now) (IsRuleFault at.now rows.now nested.now) result }
{
    if let Some(entry) = first_unnamed(alloc, at, rows, root, parents, nested)? {
        return Err(RowFault::NestedList(entry));
    }
    match first_unlisted(alloc, rows, nested)? {
        Some(_) => Err(RowFault::NestedList(nested.len())),
        None => Ok(()),
    }
}

/// Checks rows that fit the paths at which they stand, and nested entries.
fn check_markers(
    alloc: Global,
    at: &RepoPath,
    rows: &[Row],
    root: usize,
    parents: &[usize],
    nested: &[Nested],
) -> Result<(), RowFault>
    requires ordered { AreOrdered rows.now nested.now }
    requires placing { IsPlacing at.now rows.now root parents.now }
    requires stand { AllStand at.now rows.now }
    requires fit { AllFit at.now rows.now }
    ensures { Checks (KeepsRules at.now rows.now nested.now) (IsRuleFault at.now rows.now nested.now) result }
{
    match first_marked_badly(alloc, at, rows)? {
        Some(row) => Err(RowFault::Marker(row)),
        None => check_nested(alloc, at, rows, root, parents, nested),
    }
}

/// Checks rows that each stand at a path, and nested entries.
fn check_keys(
    alloc: Global,
    at: &RepoPath,
    rows: &[Row],
    root: usize,
    parents: &[usize],
    nested: &[Nested],
) -> Result<(), RowFault>
    requires ordered { AreOrdered rows.now nested.now }
    requires placing { IsPlacing at.now rows.now root parents.now }
    requires stand { AllStand at.now rows.now }
    ensures { Checks (KeepsRules at.now rows.now nested.now) (IsRuleFault at.now rows.now nested.now) result }
{
    match first_misplaced(alloc, at, rows, root, parents)? {
        Some(row) => Err(RowFault::BadKey(row)),
        None => check_markers(alloc, at, rows, root, parents, nested),
    }
}

/// Checks rows and nested entries in order, by the index of the root row.
fn check_places(
    alloc: Global,
    at: &RepoPath,
    rows: &[Row],
    root: usize,
    nested: &[Nested],
) -> Result<(), RowFault>
    requires count { length rows.now ≤ ROW_LIMIT }
    requires ordered { AreOrdered rows.now nested.now }
    requires root { root < length rows.now }
    requires is_root { HoldsAt (IsRoot at.now) rows.now root }
    ensures { Checks (KeepsRules at.now rows.now nested.now) (IsRuleFault at.now rows.now nested.now) result }
{
    let above = parents(alloc, rows, root)?;
    match first_orphan(alloc, rows, root, &above)? {
        Some(row) => Err(RowFault::Orphan(row)),
        None => check_keys(alloc, at, rows, root, &above, nested),
    }
}

/// Checks that rows and nested entries keep all rules of the catalogue at a place.
pub fn check(alloc: Global, at: &RepoPath, rows: &[Row], nested: &[Nested]) -> Result<(), RowFault>
    requires rows { length rows.now ≤ ROW_LIMIT }
    requires nested { length nested.now ≤ OBJECT_LIMIT }
    ensures { Checks (KeepsRules at.now rows.now nested.now) (IsRuleFault at.now rows.now nested.now) result }
{
    check_order(rows, nested)?;
    match root_position(at, rows) {
        Some(root) => check_places(alloc, at, rows, root, nested),
        None => Err(RowFault::Orphan(0)),
    }
}

/// The rows and nested entries of the row file of the catalogue at a place, or the first fault.
pub fn read(alloc: Global, bytes: &[u8], at: &RepoPath) -> Result<Entries, RowFault>
    ensures { MatchResult result
        (λ entries. (entries_of bytes.now ≡ Ok (entries.0.items, entries.1.items)) × KeepsRules at.now entries.0.items entries.1.items)
        (IsFirstFault bytes.now at.now) }
{
    let (rows, nested) = read_file(alloc, bytes)?;
    match check(alloc, at, &rows, &nested) {
        Ok(()) => Ok((rows, nested)),
        Err(fault) => Err(fault),
    }
}
