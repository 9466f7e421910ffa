//! Declarations of grammars: their forms, and the reading of them.
//!
//! The forms are those of ALE, the Attribute Logic Engine (B. Carpenter and G. Penn, ALE 3.2 User's Guide), in this
//! project's own profile: `specs/Forms.antt` has them.
#![tactic(auto)]

mod clauses;
mod declaration;
mod directive;
mod form;
mod forms;
mod laws;
mod lines;
mod list;
mod read;
mod rules;
mod seen;
mod types;

pub use declaration::{Declaration, LinePart, MorphLine, Part};
pub use form::Form;
pub use laws::one_declaration;
pub use read::read_declaration;
