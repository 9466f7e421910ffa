//! Descriptions of feature structures and programs as plain data, what they mean, and the defined search for what
//! satisfies them.
#![tactic(auto)]

mod answer;
mod desc;

pub use answer::Answer;
pub use desc::Desc;
