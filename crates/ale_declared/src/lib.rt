//! What declarations of a type signature declare, with names numbered in order of first mention.
#![tactic(auto)]

mod decl;
mod laws;
mod names;
mod outline;
mod written;

pub use decl::{Mention, SigDecl};
pub use laws::numbering_law;
pub use outline::Outline;
