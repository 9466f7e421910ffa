//! Commands: their forms, and the reading of them.
#![tactic(auto)]

mod command;
mod command_term;
mod read;

pub use command_term::CommandTerm;
pub use read::{one_command, read_command};
