//! The engine of searches, for states and answers of any kind, and its laws.
#![tactic(auto)]

mod laws;

pub use laws::engine_law;
