//! What is told of an entry.
ghost use Rattle.std.specs.Prelude.{◌≡◌, IfOk};
ghost use Rattle.cv_rows.specs.Row.{HasContent};
ghost use Rattle.cv_cut.specs.Told.{node_of};
ghost use Rattle.cv_resolver.specs.Entry.{stat_of};
ghost use Rattle.cv_resolver.specs.EntryInner.{entry_kind};

use cv_base::{Attr, NoMemory, Target};
use cv_rows::{Row, RowKind};
use std::alloc::Global;

/// What is told of an entry. A directory is of kind Directory, wherever its own entries stand.
#[derive(Debug, Drop)]
pub struct StatLine {
    /// What the entry is: a Directory, a File or a Link.
    pub kind: RowKind,
    /// Its attributes.
    pub attr: Attr,
    /// The bytes of a file, or of the target of a link. 0 for a directory.
    pub size: u64,
    /// Where a link leads to. Empty for anything else.
    pub target: Target,
}

/// The kind that is told of an entry with a row of this kind.
pub fn entry_kind(kind: RowKind) -> RowKind
    ensures { result ≡ entry_kind kind }
{
    match kind {
        RowKind::File => RowKind::File,
        RowKind::Link => RowKind::Link,
        RowKind::Directory | RowKind::Transition | RowKind::NestedRoot => RowKind::Directory,
    }
}

/// What is told of the entry of a row.
pub fn stat_line(alloc: Global, row: &Row) -> Result<StatLine, NoMemory>
    requires { HasContent row.now.kind row.now.size row.now.hash row.now.target }
    ensures { IfOk result (λ line. line ≡ stat_of (node_of row.now)) }
{
    Ok(StatLine {
        kind: entry_kind(row.kind),
        attr: row.attr,
        size: row.size,
        target: row.target.copy(alloc)?,
    })
}
