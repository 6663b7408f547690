//! What the system tells of what stands at a path.
ghost use Rattle.std.specs.Prelude.{◌↔◌, ◌≡◌, IsTrue};
ghost use Rattle.cv_system.specs.Looks.{IsSame};

/// What kind of thing stands at a path.
#[derive(Clone, Copy)]
pub enum Kind {
    /// A regular file.
    File,
    /// A folder.
    Folder,
    /// A link, a pipe, a socket or a device.
    Other,
}

/// What is seen of what stands at a path, or of a file that is open.
#[derive(Clone, Copy)]
pub struct Seen {
    pub kind: Kind,
    /// The device and the number on it, by which a file is known under each of its names.
    pub device: u64,
    pub inode: u64,
    /// How many names the file has.
    pub links: u64,
    /// How many bytes it has.
    pub length: u64,
}

impl Seen {
    /// Whether this is a regular file.
    pub fn is_file(&self) -> bool
        ensures { IsTrue result ↔ (self.now.kind ≡ Kind.File) }
    {
        matches!(self.kind, Kind::File)
    }

    /// Whether this is a folder.
    pub fn is_folder(&self) -> bool
        ensures { IsTrue result ↔ (self.now.kind ≡ Kind.Folder) }
    {
        matches!(self.kind, Kind::Folder)
    }

    /// Whether both tell of the same file.
    pub fn is_same(&self, other: &Seen) -> bool
        ensures { IsTrue result ↔ IsSame self.now other.now }
    {
        self.device == other.device && self.inode == other.inode
    }
}
