//! The shell: lines of questions about a served repository, answered at one pinned revision.
#![tactic(auto)]

pub mod laws;
mod line;
mod lines;
mod printing;
mod serving;
mod shell_end;
mod turn;

pub use line::{Line, read_line};
pub use lines::{LINE_LIMIT, LineFault, Lines};
pub use printing::{count_line, fault_text};
pub use serving::shell;
pub use shell_end::ShellEnd;
