//! What rooms of tests write in one way: descriptions by the names of their types and features, and faults of names.
#![tactic(auto)]

mod descriptions;
mod faults;

pub use descriptions::{feature_name, push_desc, type_name};
pub use faults::push_name_error;
