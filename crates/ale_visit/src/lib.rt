//! The states of the defined search over a whole program, and one visit of a state.
#![tactic(auto)]

mod choosing;
mod goals;
mod items;
mod lists;
mod owing;
mod state;
mod stepping;
mod visiting;

pub use items::{Demand, Element, End, Item};
pub use state::{Environment, State};
pub use visiting::{Visited, visit};
