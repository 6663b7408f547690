//! Sets of known catalogues.
ghost use Rattle.std.specs.Prelude.{◌≡◌, ◌⊎◌, ℕ, List, true, false, OnOk, OnErr, if◌then◌else◌};
ghost use Rattle.std.specs.Ordering.{eq_by_cmp};
ghost use Rattle.std.specs.BTreeSet.{contains};
ghost use Rattle.cv_base.specs.BytesOrder.{bytes_cmp};
ghost use Rattle.cv_base.specs.Path.{Path};
ghost use Rattle.cv_load.specs.Known.{is_known, with_pair, HasPair};

use cv_base::{NoMemory, ObjectId, RepoPath};
use std::alloc::Global;
use std::collections::{BTreeMap, BTreeSet};

/// Pairs of a catalogue's hash and a path, as those that were once found whole.
#[derive(Drop)]
pub struct KnownSet {
    paths: BTreeMap<RepoPath, BTreeSet<[u8; 20]>>,
}

impl KnownSet {
    /// The set of no pairs.
    pub fn new(alloc: Global) -> KnownSet
        ensures { (hash : List ℕ) (path : Path) → is_known result hash path ≡ false }
    {
        KnownSet {
            paths: BTreeMap::new(alloc),
        }
    }

    /// Whether a pair is in the set.
    pub fn is_known(&self, hash: &[u8; 20], path: &RepoPath) -> bool
        ensures { result ≡ is_known self.now hash.now path.now }
    {
        match self.paths.get(path) {
            Some(hashes) => hashes.contains(hash),
            None => false,
        }
    }

    /// Adds a pair. Where there is no memory, the set stays as it was.
    pub fn add(&mut self, alloc: Global, hash: [u8; 20], path: &RepoPath) -> Result<(), NoMemory>
        ensures added { OnOk result ((h : List ℕ) (p : Path) → is_known self.new h p ≡ with_pair hash path.now h p (is_known self.old h p)) }
        ensures kept { OnErr result ((h : List ℕ) (p : Path) → is_known self.new h p ≡ is_known self.old h p) }
    {
        if let Some(hashes) = self.paths.get_mut(path) {
            return add_hash(hashes, hash);
        }
        let mut hashes = BTreeSet::new(alloc);
        add_hash(&mut hashes, hash)?;
        let copy = path.copy(alloc)?;
        self.paths.insert(copy, hashes)?;
        Ok(())
    }

    /// Adds pairs of a catalogue's id and its path. Where there is no memory, some of them are in the set.
    pub fn add_all(&mut self, alloc: Global, pairs: &[(ObjectId, RepoPath)]) -> Result<(), NoMemory>
        ensures only { (h : List ℕ) (p : Path) → is_known self.new h p ≡ true → (is_known self.old h p ≡ true) ⊎ HasPair pairs.now h p }
        ensures kept { (h : List ℕ) (p : Path) → is_known self.old h p ≡ true → is_known self.new h p ≡ true }
        ensures added { OnOk result ((h : List ℕ) (p : Path) → HasPair pairs.now h p → is_known self.new h p ≡ true) }
    {
        for pair in pairs {
            self.add(alloc, pair.0.hash, &pair.1)?;
        }
        Ok(())
    }
}

/// Adds a hash. Where there is no memory, the set stays as it was.
fn add_hash(hashes: &mut BTreeSet<[u8; 20]>, hash: [u8; 20]) -> Result<(), NoMemory>
    ensures added { OnOk result ((h : List ℕ) → contains bytes_cmp hashes.new h ≡ (if eq_by_cmp bytes_cmp hash h then true else contains bytes_cmp hashes.old h)) }
    ensures kept { OnErr result ((h : List ℕ) → contains bytes_cmp hashes.new h ≡ contains bytes_cmp hashes.old h) }
{
    hashes.insert(hash)?;
    Ok(())
}
