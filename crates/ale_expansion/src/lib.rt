//! Descriptions that templates stand for: macro calls are replaced by what they stand for, lists by their cells, and variables
//! by slots.
#![tactic(auto)]

mod frame;
mod mark;
mod marks;
mod met;
mod rest;
mod variables;
mod walk;

pub use variables::{Variables, expand};
