//! The whole program over files and a sink: reading, searching and writing.
#![tactic(auto)]

mod exit;
mod lines;
mod program;
mod report;
mod running;
mod status;

pub use exit::exit_number;
pub use program::run;
pub use status::Status;
