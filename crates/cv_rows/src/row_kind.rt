//! Kinds of rows.
ghost use Rattle.std.specs.Prelude.{◌≡◌};

/// What a row stands for.
#[derive(Clone, Copy, Debug, PartialEq, Eq)]
pub enum RowKind {
    /// A directory of the catalogue's own region.
    Directory,
    /// A directory whose rows stand in a nested catalogue.
    Transition,
    /// The directory at which a nested catalogue begins, in that catalogue itself.
    NestedRoot,
    /// A regular file.
    File,
    /// A symbolic link.
    Link,
}

impl RowKind {
    ghost use Rattle.cv_rows.specs.Row.{flags_of, type_bits, holds_rows};

    /// The flags that stand for the kind.
    pub(crate) fn flags(self) -> u32
        ensures { result ≡ flags_of self }
    {
        match self {
            RowKind::Directory => 1,
            RowKind::Transition => 3,
            RowKind::NestedRoot => 33,
            RowKind::File => 4,
            RowKind::Link => 12,
        }
    }

    /// The bits of the file type in the mode, as in POSIX.
    pub(crate) fn type_bits(self) -> u32
        ensures { result ≡ type_bits self }
    {
        match self {
            RowKind::Directory | RowKind::Transition | RowKind::NestedRoot => 0o040000,
            RowKind::File => 0o100000,
            RowKind::Link => 0o120000,
        }
    }

    /// Whether other rows of the catalogue can stand below such a row.
    pub fn holds_rows(self) -> bool
        ensures { result ≡ holds_rows self }
    {
        matches!(self, RowKind::Directory | RowKind::NestedRoot)
    }
}
