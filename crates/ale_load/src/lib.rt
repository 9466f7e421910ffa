//! Grammar files and command files, from their bytes: which are accepted, and why each other one is refused.
#![tactic(auto)]

mod command_error;
mod commands;
mod copying;
mod file;
mod file_error;
mod grammar;
mod grammar_error;
mod query;

pub use command_error::CommandError;
pub use commands::{commands_law, read_commands};
pub use file::FILE_LIMIT;
pub use file_error::FileError;
pub use grammar::{Loaded, Passed, load, load_law};
pub use grammar_error::GrammarError;
pub use query::Query;
