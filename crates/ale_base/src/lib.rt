//! Files and output as the program meets them: traits for what is read and what is written, each with
//! a count of faults, implementations in memory and over the system, and the two calls that read a
//! whole file and write all of a text.
#![tactic(auto)]

#[cfg(test)]
mod edge_tests;
pub mod fault;
pub mod held_file;
pub mod input;
pub mod memory_files;
pub mod memory_sink;
pub mod output;
pub mod reading;
pub mod real_files;
pub mod real_sink;
pub mod system;
pub mod writing;

pub use fault::Failed;
pub use input::{ChooseError, Files};
pub use memory_files::MemoryFiles;
pub use memory_sink::MemorySink;
pub use output::Sink;
pub use reading::{ReadError, read_all};
pub use real_files::RealFiles;
pub use real_sink::RealSink;
pub use writing::{WriteError, write_all};
