//! What names mean in a grammar, or the first fault of three rounds over its declarations.
#![tactic(auto)]

mod earlier;
mod fault;
mod laws;
mod naming;
mod round_one;
mod round_three;
mod round_two;

pub use fault::NameFault;
pub use laws::naming_law;
pub use naming::names_of;
