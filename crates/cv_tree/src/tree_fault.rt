//! Refusals of trees.
ghost use Rattle.std.specs.Prelude.{◌≡◌};
ghost use Rattle.cv_tree.specs.declared.tree_fault.TreeFault.TheVariants as faults;

use cv_base::NoMemory;

/// Why a tree or a part did not take a node or a part at a path.
#[derive(Clone, Copy, Debug, PartialEq, Eq)]
pub enum TreeFault {
    /// The path's parent is not a directory of the map.
    NoParent,
    /// The path is there already.
    Exists,
    /// There was no memory.
    NoMemory,
}

impl From<NoMemory> for TreeFault {
    ghost from_gives = { λ _ fault. fault ≡ faults.NoMemory };

    fn from(_fault: NoMemory) -> TreeFault {
        TreeFault::NoMemory
    }
}
