//! The parts of the output that commands have: the answers of their searches, printed.
#![tactic(auto)]

mod command;
mod laws;
mod root;

pub use command::push_command;
pub use laws::written_law;
