//! The cuts of a tree, and their regions.
ghost use Rattle.std.specs.Prelude.{◌≡◌, ◌≤◌, true, not, filter, length, take, drop, reverse, Some, IfOk, if◌then◌else◌};
ghost use Rattle.std.specs.FinMap as map;
ghost use Rattle.std.specs.Ordering.{is_lt};
ghost use Rattle.cv_base.specs.Path.{path_cmp, covers};
ghost use Rattle.cv_tree.specs.Tree.{IsTree};
ghost use Rattle.cv_cut.specs.Cuts.{is_cut, cuts_of};
ghost use Rattle.cv_cut.specs.Cut.{is_other, region_at};
ghost use Rattle.cv_cut.specs.CutInner.{StandFrom};

use crate::marks::{is_marked, is_other};
use cv_base::{NoMemory, RepoPath};
use cv_tree::{Node, Tree};
use std::alloc::Global;

/// Whether a path, with this node, is that of a cut.
fn is_cut(alloc: Global, tree: &Tree, path: &RepoPath, node: &Node) -> Result<bool, NoMemory>
    requires tree { IsTree tree.now }
    requires node { map.get tree.now path.now ≡ Some node.now }
    ensures { IfOk result (λ found. found ≡ is_cut tree.now path.now) }
{
    if path.names().is_empty() {
        return Ok(true);
    }
    is_marked(alloc, tree, path, node)
}

/// The cuts of a tree with these entries, in the reverse order of their paths: so those below a cut stand before it.
pub(crate) fn cuts(
    alloc: Global,
    tree: &Tree,
    entries: &[(RepoPath, Node)],
) -> Result<Vec<RepoPath>, NoMemory>
    requires tree { IsTree tree.now }
    requires entries { entries.now ≡ map.entries tree.now }
    ensures { IfOk result (λ found. found.items ≡ reverse (cuts_of tree.now)) }
{
    let mut found = Vec::new(alloc);
    for entry in entries {
        if is_cut(alloc, tree, &entry.0, &entry.1)? {
            found.push(entry.0.copy(alloc)?)?;
        }
    }
    found.reverse();
    Ok(found)
}

/// The entries that don't stand before a path, of sorted ones.
fn starting_at<'a>(entries: &'a [(RepoPath, Node)], path: &RepoPath) -> &'a [(RepoPath, Node)]
    requires { map.is_sorted path_cmp entries.now ≡ true }
    ensures { result.now ≡ filter (λ e. not (is_lt (path_cmp e.0 path.now))) entries.now }
{
    let start = entries.partition_point(
        |entry: &(RepoPath, Node)| -> bool
            ensures { result ≡ is_lt (path_cmp entry.now.0 path.entry.now) }
        { entry.0 < *path },
    );
    &entries[start..]
}

/// How many entries a path covers, of sorted ones of which none stands before it: they are the first.
fn count_covered(entries: &[(RepoPath, Node)], path: &RepoPath) -> usize
    requires { StandFrom path.now entries.now }
    ensures count { result ≤ length entries.now }
    ensures covered { take result entries.now ≡ filter (λ e. covers path.now e.0) entries.now }
    ensures others { drop result entries.now ≡ filter (λ e. not (covers path.now e.0)) entries.now }
{
    entries.partition_point(
        |entry: &(RepoPath, Node)| -> bool
            ensures { result ≡ covers path.entry.now entry.now.0 }
        { path.covers(&entry.0) },
    )
}

/// The entries that a path covers, of sorted ones.
fn covered<'a>(entries: &'a [(RepoPath, Node)], path: &RepoPath) -> &'a [(RepoPath, Node)]
    requires { map.is_sorted path_cmp entries.now ≡ true }
    ensures { result.now ≡ filter (λ e. covers path.now e.0) entries.now }
{
    let rest = starting_at(entries, path);
    &rest[..count_covered(rest, path)]
}

/// What is left of the entries behind one in the region of a cut: where it is another cut, those that it doesn't cover.
fn left_behind<'a>(
    alloc: Global,
    tree: &Tree,
    cut: &RepoPath,
    first: &(RepoPath, Node),
    more: &'a [(RepoPath, Node)],
) -> Result<&'a [(RepoPath, Node)], NoMemory>
    requires tree { IsTree tree.now }
    requires node { map.get tree.now first.now.0 ≡ Some first.now.1 }
    requires covered { covers cut.now first.now.0 ≡ true }
    requires more { StandFrom first.now.0 more.now }
    ensures { IfOk result (λ rest. rest.now ≡ (if is_other tree.now cut.now first.now.0 then filter (λ e. not (covers first.now.0 e.0)) more.now else more.now)) }
{
    if is_other(alloc, tree, cut, &first.0, &first.1)? {
        Ok(&more[count_covered(more, &first.0)..])
    } else {
        Ok(more)
    }
}

/// An equal entry.
fn copy(alloc: Global, entry: &(RepoPath, Node)) -> Result<(RepoPath, Node), NoMemory>
    ensures { IfOk result (λ made. made ≡ entry.now) }
{
    Ok((entry.0.copy(alloc)?, entry.1.copy(alloc)?))
}

/// The entries of the region of a cut, of all entries of a tree. What stands below another cut in it is passed over.
pub(crate) fn region(
    alloc: Global,
    tree: &Tree,
    entries: &[(RepoPath, Node)],
    cut: &RepoPath,
) -> Result<Vec<(RepoPath, Node)>, NoMemory>
    requires tree { IsTree tree.now }
    requires entries { entries.now ≡ map.entries tree.now }
    ensures { IfOk result (λ region. region.items ≡ region_at tree.now cut.now) }
{
    let mut region = Vec::new(alloc);
    let mut rest = covered(entries, cut);
    while let Some((first, more)) = rest.split_first() {
        region.push(copy(alloc, first)?)?;
        rest = left_behind(alloc, tree, cut, first, more)?;
    }
    Ok(region)
}
