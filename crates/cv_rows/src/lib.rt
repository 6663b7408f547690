//! Row files: the catalogues of a repository's directories, both ways.
#![tactic(auto)]

mod catalogue;
mod children;
mod covered;
mod fields;
mod judging;
mod keys;
pub mod laws;
mod limits;
mod markers;
mod nested;
mod nested_list;
mod order;
mod path_digest;
mod places;
mod reading;
mod renewing;
mod row;
mod row_fault;
mod row_kind;
mod rules;
mod spelling;
mod with_fault;
mod write;

pub use catalogue::Catalogue;
pub use limits::ROW_LIMIT;
pub use nested::Nested;
pub use places::below;
pub use row::Row;
pub use row_fault::RowFault;
pub use row_kind::RowKind;
pub use with_fault::WithFault;
