//! The nodes of a tree.
ghost use Rattle.std.specs.Prelude.{◌≡◌, IfOk};

use cv_base::{Attr, NoMemory, Target};
use std::alloc::Global;

/// The content of a file, by its SHA-1 digest and its size in bytes.
#[derive(Clone, Copy, Debug, PartialEq, Eq)]
pub struct FileRef {
    /// The SHA-1 digest of the content.
    pub hash: [u8; 20],
    /// How many bytes the content has.
    pub size: u64,
}

/// A directory, a regular file or a symbolic link.
#[derive(Debug, Drop)]
pub enum Node {
    /// A directory. What it holds stands below its path.
    Dir(Attr),
    /// A regular file. Its content is stored elsewhere.
    File(Attr, FileRef),
    /// A symbolic link, with the text that it leads to.
    Link(Attr, Target),
}

impl Node {
    /// An equal node.
    pub fn copy(&self, alloc: Global) -> Result<Node, NoMemory>
        ensures { IfOk result (λ made. made ≡ self.now) }
    {
        match self {
            Node::Dir(attr) => Ok(Node::Dir(*attr)),
            Node::File(attr, file) => Ok(Node::File(*attr, *file)),
            Node::Link(attr, target) => Ok(Node::Link(*attr, target.copy(alloc)?)),
        }
    }
}
