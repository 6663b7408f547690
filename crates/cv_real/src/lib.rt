//! The outside as the system gives it: thin adapters that tell nothing of content.
#![tactic(auto)]

mod ahead;
mod begun;
mod clock;
mod count;
mod dial;
mod front;
mod listing;
mod streams;
mod system_calls;
mod system_folder;
mod texts;

pub use clock::SystemClock;
pub use dial::TcpDial;
pub use streams::{StreamSink, StreamSource};
pub use system_calls::SystemCalls;
pub use system_folder::SystemFolder;
pub use texts::{TEXT_LIMIT, program_words, text_or_empty};
