//! Relations on the numbers below a size as rows of bits, and what the edges of a graph lead to.
#![tactic(auto)]

mod closure;
mod laws;
mod rows;

pub use closure::reachability;
pub use laws::paths_compose;
pub use rows::Relation;
