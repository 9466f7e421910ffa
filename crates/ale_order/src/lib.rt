//! In which order numbers that call one another depend on each other, and tables that are made in that order.
#![tactic(auto)]

mod filling;
mod graph;
mod groups;
mod order;
mod pile;
mod search;

pub use filling::{Entries, fill};
pub use order::{Dependence, order_of_dependence};
