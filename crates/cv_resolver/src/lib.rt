//! A client's answers at one root, from single catalogues.
#![tactic(auto)]

mod arrival;
mod cache;
mod enter;
mod follow;
mod found;
mod giving;
pub mod laws;
mod listing;
mod pass;
mod progress;
mod question;
mod resolver;
mod spot;
mod stage;
mod start;
mod stat_line;
mod step;
mod target;
mod walk;

pub use found::{ClientFault, Found, RenewFault};
pub use question::Question;
pub use resolver::Resolver;
pub use start::LINKS;
pub use stat_line::StatLine;
