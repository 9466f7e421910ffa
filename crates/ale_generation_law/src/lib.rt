//! The laws of generation: what its answers mean, and that what is generated can be parsed.
#![tactic(auto)]

mod laws;

pub use laws::{generation_law, headed_spans_law};
