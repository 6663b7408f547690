//! Paths of one region that share a key.
ghost use Rattle.std.specs.Prelude.{◌≡◌, Some, IfOk, OnOk, IfErr, MatchOption};
ghost use Rattle.std.specs.List.{All};
ghost use Rattle.std.specs.BTreeMap.{Updates};
ghost use Rattle.std.specs.FinMap as map;
ghost use Rattle.cv_base.specs.BytesOrder.{bytes_cmp};
ghost use Rattle.cv_rows.specs.Made.{AreApart};
ghost use Rattle.cv_tree.specs.Tree.{IsTree, at};
ghost use Rattle.cv_cut.specs.Cut.{keys_at};
ghost use Rattle.cv_cut.specs.CutInner.{AreSame, IsCollision};
ghost use Rattle.cv_cut.specs.PieceInner.{AreCutsWithin, IsSharedAmong};
ghost use Rattle.cv_cut.specs.Region.{KeysApart};

use crate::cut_fault::CutFault;
use crate::region::region;
use cv_base::{NoMemory, RepoPath};
use cv_tree::{Node, Tree};
use std::alloc::Global;
use std::collections::BTreeMap;

/// Keeps the place of a key.
fn note(seen: &mut BTreeMap<[u8; 16], usize>, key: [u8; 16], place: usize) -> Result<(), NoMemory>
    ensures { OnOk result (Updates bytes_cmp seen.old seen.new key (Some place)) }
{
    seen.insert(key, place)?;
    Ok(())
}

/// The places of two entries whose paths have one key: the first at which such an entry follows another, and the other's.
fn shared_key(
    alloc: Global,
    region: &[(RepoPath, Node)],
) -> Result<Option<(usize, usize)>, NoMemory>
    ensures { IfOk result (λ found. MatchOption found (AreApart (keys_at region.now)) (λ places. AreSame (keys_at region.now) places.0 places.1)) }
{
    let mut seen = BTreeMap::new(alloc);
    for second in 0..region.len() {
        let key = region[second].0.key().0;
        if let Some(first) = seen.get(&key) {
            return Ok(Some((*first, second)));
        }
        note(&mut seen, key, second)?;
    }
    Ok(None)
}

/// Looks for two paths of a region that have one key.
pub(crate) fn check_region(alloc: Global, region: &[(RepoPath, Node)]) -> Result<(), CutFault>
    ensures ok { OnOk result (AreApart (keys_at region.now)) }
    ensures err { IfErr result (IsCollision region.now) }
{
    let Some((first, second)) = shared_key(alloc, region)? else {
        return Ok(());
    };
    Err(CutFault::PathCollision {
        first: region[first].0.copy(alloc)?,
        second: region[second].0.copy(alloc)?,
    })
}

/// Looks in the region of each of these cuts for two paths that have one key, where they are the cuts of a tree with these
/// entries at a path and below.
pub(crate) fn check_keys(
    alloc: Global,
    tree: &Tree,
    entries: &[(RepoPath, Node)],
    cuts: &[RepoPath],
) -> Result<(), CutFault>
    requires tree { IsTree tree.now }
    requires entries { entries.now ≡ map.entries tree.now }
    requires cuts { AreCutsWithin tree.now cuts.now }
    ensures ok { OnOk result (All (λ c. KeysApart c (at tree.now c)) cuts.now) }
    ensures err { IfErr result (IsSharedAmong tree.now cuts.now) }
{
    for cut in cuts {
        let region = region(alloc, tree, entries, cut)?;
        check_region(alloc, &region)?;
    }
    Ok(())
}
