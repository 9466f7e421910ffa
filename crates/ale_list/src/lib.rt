//! The types and features of lists, by their names in a signature.
#![tactic(auto)]

mod lists;

pub use lists::{ListTypes, list_types, list_types_or_none};
