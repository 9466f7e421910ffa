//! The visible part of an answer as what is kept of it, and its law.
#![tactic(auto)]

mod laws;

pub use laws::visible_part_law;
