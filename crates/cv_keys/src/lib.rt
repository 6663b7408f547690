//! The keys of a gateway, and the Authorization header.
#![tactic(auto)]

mod auth_fault;
mod key;
mod key_fault;
mod key_no;
mod key_table;
mod read_keys;

pub use auth_fault::AuthFault;
pub use key::Key;
pub use key_fault::KeyFault;
pub use key_no::KeyNo;
pub use key_table::KeyTable;
pub use read_keys::{KEY_LIMIT, SECRET_LIMIT};
