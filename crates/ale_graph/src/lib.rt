//! Typed feature structures as plain graphs, and the closure of facts about nodes.
#![tactic(auto)]

mod closed;
mod closure;
mod draft;
mod fact;
mod fill;
mod graph;
mod join;
mod laws;
mod merge;
mod node;
mod order;
mod partition;
mod raise;
mod reading;
mod result;
mod table;

pub use closed::Closed;
pub use closure::close;
pub use fact::Fact;
pub use graph::Graph;
pub use laws::{closure_law, first_step_laws};
pub use node::Node;
