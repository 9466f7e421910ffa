//! What names in descriptions, goals and declarations may stand for, and the first name that stands for nothing.
#![tactic(auto)]

mod declaration;
mod description;
mod error;
mod goal;
mod keys;
mod knowing;
mod laws;
mod vocabulary;

pub use declaration::first_unknown_in_declaration;
pub use description::first_unknown;
pub use error::NameError;
pub use goal::first_unknown_in_goal;
pub use laws::{first_law, key_law};
pub use vocabulary::Vocabulary;
