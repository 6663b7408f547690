//! What a folder of changes makes of a published part.
#![tactic(auto)]

mod bounds;
mod changes;
mod contents;
mod event;
mod found;
mod hidden;
pub mod laws;
mod overlay_fault;
mod overlaying;
mod read_fault;
mod reading;
mod visiting;
mod whiteout;

pub use bounds::SUM_LIMIT;
pub use changes::Changes;
pub use overlay_fault::OverlayFault;
pub use overlaying::overlay;
pub use read_fault::ReadFault;
pub use reading::read_folder;
