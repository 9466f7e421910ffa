//! The laws of single visits of the defined search: what a visit of a state has to do with the structures that
//! satisfy it.
#![tactic(auto)]

mod laws;

pub use laws::{logic_law, step_law};
