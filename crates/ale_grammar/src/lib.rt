//! The program that declarations make.
#![tactic(auto)]

mod building;
mod grammar;
mod laws;
mod lines;
mod making;
mod pred;

pub use grammar::{Resolved, resolve};
pub use laws::{bound_law, grammar_law, resolve_law};
