//! The laws of whole searches, from those of single visits.
#![tactic(auto)]

mod laws;

pub use laws::{description_law, enough_law, goal_law, kept_law, model_law, run_law};
