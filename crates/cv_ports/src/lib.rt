//! The outside: where bytes come from and go, where links to other hosts come from, where objects stand, what time it is,
//! and where a session is held. Each has a form in memory.
#![tactic(auto)]

mod ascending;
mod came_back;
mod clock;
mod dial;
mod failed;
mod failing_calls;
mod folder;
mod hold;
mod host_name;
mod link;
mod link_source;
mod memory_clock;
mod memory_dial;
mod memory_folder;
mod memory_hold;
mod memory_link;
mod memory_shelf;
mod memory_sink;
mod memory_source;
mod place;
mod shelf;
mod sink;
mod source;

pub use ascending::ascend;
pub use clock::Clock;
pub use dial::Dial;
pub use failed::Failed;
pub use failing_calls::FailingCalls;
pub use folder::{FOLDER_READ_LIMIT, Folder, FolderFault, FolderItem, FoundKind};
pub use hold::{Hold, NoHold, Point};
pub use host_name::{HOST_LIMIT, HostName};
pub use link::Link;
pub use link_source::LinkSource;
pub use memory_clock::MemoryClock;
pub use memory_dial::MemoryDial;
pub use memory_folder::MemoryFolder;
pub use memory_hold::{MemoryHold, Pause};
pub use memory_link::MemoryLink;
pub use memory_shelf::MemoryShelf;
pub use memory_sink::MemorySink;
pub use memory_source::MemorySource;
pub use shelf::{Shelf, ShelfFault};
pub use sink::{Sink, write_all};
pub use source::Source;
