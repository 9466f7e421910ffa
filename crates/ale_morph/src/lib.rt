//! Morphology: what lines of lexical rules make of a word.
//!
//! The lines are those of morphological rules in lexical rules of ALE (B. Carpenter and G. Penn, ALE 3.2 User's
//! Guide); which of several ways to fit a line is taken is this project's own rule.
#![tactic(auto)]

mod bound;
mod laws;
mod line;
mod lines;
mod prefix;
mod search;
mod spelling;
mod stack;
mod status;

pub use laws::morphology_law;
pub use line::{Line, Piece};
pub use lines::apply;
