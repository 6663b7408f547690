//! The folders that a walk goes into next.
ghost use Rattle.std.specs.Prelude.{◌≡◌, ◌<◌, ◌++◌, [], ◌∷◌, All, drop, length, map, IfOk, IfSome};
ghost use Rattle.cv_system.specs.Walks.{end_of, first_of, place_of, with_path};

use crate::path_buffer::PathBuffer;
use std::alloc::{AllocError, Global};
use std::marker::Model;
use std::mem;

/// How many paths are kept.
const ROOM: usize = 128;

/// The paths of the folders that come next, as many as there is room for, in the order of their bytes. Room that is free is
/// an empty path, and stands behind them. The constructor takes the memory for all; no other call takes any.
#[derive(Drop)]
pub struct Ahead {
    paths: Vec<PathBuffer>,
}

impl Model for Ahead {
    ghost use Rattle.std.specs.Prelude.{List, ℕ, ◌≡◌, vec_len};
    ghost use Rattle.cv_system.specs.declared.ahead.TheConstants.{ROOM};

    ghost Value = { List (List ℕ) };

    ghost view = { λ ahead. ahead.paths.items };

    ghost invariant = { λ ahead. vec_len ahead.paths ≡ ROOM };
}

/// The place of a path among those that are kept, if there is one for it.
fn place_of(paths: &[PathBuffer], path: &str) -> Option<usize>
    ensures place { result ≡ place_of path.now paths.now }
    ensures within { IfSome result (λ place. place < length paths.now) }
{
    paths
        .iter()
        .position(|kept| kept.as_str().is_empty() || path < kept.as_str())
}

impl Ahead {
    /// Nothing is kept.
    pub fn new(alloc: Global) -> Result<Ahead, AllocError>
        ensures { IfOk result (λ ahead. All (λ path. path ≡ []) ahead) }
    {
        let mut paths = Vec::with_capacity(alloc, ROOM)?;
        for _ in 0..ROOM {
            paths.push(PathBuffer::new(alloc)?)?;
        }
        Ok(Ahead { paths })
    }

    /// The path that comes first. Empty where none is kept.
    #[tactic(auto, using(std::proofs::lemmas::List::get_or_default))]
    pub fn first(&self) -> &str
        ensures { result.now ≡ first_of self.now }
    {
        self.paths[0].as_str()
    }

    /// The path that comes last, where there is no room for more. Empty where there is.
    #[tactic(auto, using(std::proofs::lemmas::List::get_or_default))]
    pub fn end(&self) -> &str
        ensures { result.now ≡ end_of self.now }
    {
        self.paths[ROOM - 1].as_str()
    }

    /// Keeps a path in its place, if there is one for it, and the one that comes last gives its room. What is left in the
    /// buffer is no path of the walk.
    pub fn keep(&mut self, path: &mut PathBuffer)
        ensures { self.new ≡ with_path path.old self.old }
    {
        let Some(place) = place_of(self.paths.as_slice(), path.as_str()) else {
            return;
        };
        let Some(last) = self.paths.pop() else {
            return;
        };
        let mut kept = last;
        mem::swap(&mut kept, path);
        let _ = self.paths.insert(place, kept);
    }

    /// Takes away the path that comes first, into this buffer.
    #[tactic(auto, using(std::proofs::lemmas::List::get_or_default))]
    pub fn take_first(&mut self, path: &mut PathBuffer)
        ensures path { path.new ≡ first_of self.old }
        ensures rest { self.new ≡ drop 1 self.old ++ [] ∷ [] }
    {
        let mut free = self.paths.remove(0);
        mem::swap(&mut free, path);
        free.clear();
        let _ = self.paths.push(free);
    }

    /// Keeps nothing any more.
    pub fn clear(&mut self)
        ensures { self.new ≡ map (λ _. []) self.old }
    {
        for path in self.paths.iter_mut() {
            path.clear();
        }
    }
}
