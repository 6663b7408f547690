//! A walk begins.
ghost use Rattle.std.specs.Prelude.{◌≡◌, ℕ, List, map, IfOk};
ghost use Rattle.cv_resolver.specs.Start.{IsStart};

use crate::spot::{Level, Spot};
use crate::walk::Walk;
use cv_base::{NoMemory, PathName, RepoPath, Text};
use std::alloc::Global;
use std::collections::VecDeque;

/// How many links a walk follows.
pub const LINKS: u32 = 32;

/// The texts of names.
fn texts(alloc: Global, names: &[PathName]) -> Result<VecDeque<Text>, NoMemory>
    ensures { IfOk result (λ texts. texts.items ≡ names.now) }
{
    let mut texts = VecDeque::new(alloc);
    for name in names {
        texts.push_back(Text::from_str(alloc, name.as_str())?)?;
    }
    Ok(texts)
}

/// The walk to a path, from the root, where the root's catalogue has this digest.
pub fn start(alloc: Global, root: [u8; 20], path: &RepoPath) -> Result<Walk, NoMemory>
    ensures { IfOk result (IsStart root path.now) }
{
    let names = texts(alloc, path.names())?;
    let level = Level {
        path: RepoPath::root(alloc),
        hash: root,
        row: None,
    };
    let spot = Spot {
        at: RepoPath::root(alloc),
        is_directory: true,
        outer: Vec::new(alloc),
        level,
    };
    Ok(Walk {
        spot,
        names,
        links: LINKS,
    })
}
