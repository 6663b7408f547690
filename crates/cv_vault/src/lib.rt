//! A vault keeps whole files under names, and its contract says what a crash at any moment may leave of them.
#![tactic(auto)]

mod fate;
mod files;
mod memory_vault;
mod mortal;
mod place;
mod schedule;
mod table;
mod vault;
mod wider;

pub use files::{bring_file, is_sure, move_in, put_on_way, replace};
pub use memory_vault::MemoryVault;
pub use mortal::Mortal;
pub use vault::{Vault, VaultFault};
pub use wider::more_names_may_be_left_out;
