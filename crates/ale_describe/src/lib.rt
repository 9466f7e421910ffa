//! What written descriptions and goals stand for when their names are looked up, and macros and lists are put in.
#![tactic(auto)]

mod goals;
mod grammar;
mod laws;
mod looking;
mod meaning_error;
mod meanings;
mod names;
mod scope;
mod slots;
mod sums;
mod templates;

pub use grammar::{macros, macros_law};
pub use laws::{calls_law, describe_law, limits_law, meaning_law, plain_goals_law, plain_law};
pub use meaning_error::MeaningError;
pub use meanings::{NamedDesc, NamedGoal};
pub use names::Names;
pub use scope::Scope;
pub use slots::Slots;
