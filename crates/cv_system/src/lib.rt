//! What a vault over a folder asks of the system, and how names and folders are looked at, gone through and made durable.
#![tactic(auto)]

mod ahead;
mod cut;
/// Looks at paths, which go through no link; opening and reading what was seen.
pub mod looks;
mod names;
mod path_buffer;
mod place;
mod seen;
mod syncing;
mod system;
mod walk;
mod ways;

pub use cut::{NAMES_ROOM, cut_name};
pub use names::{
    NEXT, folder_of, has_no_slash, is_name, is_part, is_root, is_way, names_stand_apart, way_at,
    way_part,
};
pub use path_buffer::{PATH_ROOM, PathBuffer};
pub use seen::{Kind, Seen};
pub use syncing::{Unsynced, end_begun, sync_folder, sync_folders};
pub use system::System;
pub use walk::Walk;
