//! The law of replies: what the answers of each command have to do with its solutions, and which
//! replies are marked unfinished.
#![tactic(auto)]

mod laws;

pub use laws::{marks_law, reply_law};
