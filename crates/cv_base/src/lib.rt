//! The values that every crate of cvkit speaks of.
#![tactic(auto)]

mod attr;
mod bytes;
mod decimal;
mod digest;
mod field;
mod id;
mod items;
mod limits;
mod line;
mod marker;
mod memory;
mod name;
mod object;
mod path_fault;
mod path_key;
mod path_name;
mod read_field;
mod repo_path;
mod steps;
mod tag;
mod target;
mod text;
mod text_order;
mod token;
mod utf8;

pub use attr::Attr;
pub use bytes::Bytes;
pub use decimal::read_decimal;
pub use digest::{DIGEST_DIGITS, DIGEST_SIZE, digest_digits, digest_text, read_digest};
pub use field::{split_array, split_bytes, split_u16, split_u32, split_u64};
pub use id::{Kind, ObjectId};
pub use items::Items;
pub use limits::{
    DIRECTORY_MODE, KEY_ID_LIMIT, LAST_REVISION, LAST_TIME, MODE_LIMIT, OBJECT_LIMIT, TAG_LIMIT,
};
pub use line::newline_at;
pub use marker::{MARKER, ends_in_marker};
pub use memory::NoMemory;
pub use name::{NAME_LIMIT, Name};
pub use object::Object;
pub use path_fault::PathFault;
pub use path_key::PathKey;
pub use path_name::{PATH_NAME_LIMIT, PathName, is_path_name};
pub use read_field::{read_array, read_bytes, read_length, read_u16, read_u32, read_u64};
pub use repo_path::{NAMES_LIMIT, PATH_LIMIT, RepoPath};
pub use steps::Steps;
pub use tag::are_tag_bytes;
pub use target::{TARGET_LIMIT, Target};
pub use text::Text;
pub use text_order::cmp_texts;
pub use token::Token;
