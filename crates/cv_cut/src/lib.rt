//! A tree and its catalogues: what the hash of a root catalogue means.
#![tactic(auto)]

mod catalogues;
mod collision;
mod cut_fault;
mod cutting;
pub mod laws;
mod load_fault;
mod marks;
mod nested;
mod objects;
mod open;
mod pieces;
mod region;
mod rows;
mod tree_cut;

pub use catalogues::{catalogue_at, nested_catalogue};
pub use cut_fault::CutFault;
pub use cutting::cut;
pub use load_fault::LoadFault;
pub use objects::check_size;
pub use open::{fits_place, opened};
pub use pieces::{Piece, PieceCut, alone, cut_piece, piece_at, whole};
pub use tree_cut::Cut;
