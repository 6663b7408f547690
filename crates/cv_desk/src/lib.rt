//! The gate over a repository's line on disk, and the desk for one connection over it.
#![tactic(auto)]

/// The answer of a reply, which is made once for the journal and once for who asked.
macro_rules! answer {
    ($reply:expr) => {
        $crate::answer::Answer::of($reply, $reply)
    };
}

mod ageing;
mod answer;
mod begun;
mod committing;
mod gate;
mod gate_state;
pub mod laws;
mod listing;
mod one_desk;
mod publishing;
mod sent;
mod taken;
mod waiting;

pub use begun::Begun;
pub use gate::Gate;
pub use one_desk::OneDesk;
