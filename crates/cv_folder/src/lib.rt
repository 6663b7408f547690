//! A vault over a folder, over what it asks of the system.
#![tactic(auto)]

mod acting;
mod folder_vault;
mod hold;
mod listing;
mod making;
mod noting;
mod putting;
mod settling;

pub use folder_vault::FolderVault;
