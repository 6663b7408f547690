//! A client of a served repository: exchanges with its server, and answers to questions at one pinned root.
#![tactic(auto)]

mod answering;
mod ask_fault;
mod asking;
mod exchanging;
mod fetching;
pub mod laws;
mod pinning;
mod printing;
mod url;

pub use answering::answer;
pub use ask_fault::AskFault;
pub use asking::ask;
pub use exchanging::{ExchangeFault, exchange};
pub use fetching::fetch;
pub use pinning::{CATALOGUES, fetch_manifest, pin};
pub use printing::found_text;
pub use url::Url;
