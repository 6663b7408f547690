//! Attributes of entries.
ghost use Rattle.std.specs.Prelude.{◌≡◌};
ghost use Rattle.cv_base.specs.Attr.{new_directory};

use crate::limits::DIRECTORY_MODE;

/// The attributes of a directory, a file or a link.
#[derive(Clone, Copy, Debug, PartialEq, Eq)]
pub struct Attr {
    /// The twelve permission bits, as in POSIX.
    pub mode: u32,
    /// The time of the last change of content, in seconds since 1970.
    pub mtime: u64,
    /// The number of the owning user.
    pub uid: u32,
    /// The number of the owning group.
    pub gid: u32,
}

impl Attr {
    /// Those of a directory that is made at this moment: user and group 0 own it.
    pub fn new_directory(mtime: u64) -> Attr
        ensures { result ≡ new_directory mtime }
    {
        Attr {
            mode: DIRECTORY_MODE,
            mtime,
            uid: 0,
            gid: 0,
        }
    }
}
