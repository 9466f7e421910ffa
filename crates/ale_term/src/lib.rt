//! Descriptions and goals as they are written: their lexemes, their grammar, and the reading of them.
//!
//! The forms are those of the description language and of definite clauses of ALE, the Attribute Logic Engine
//! (B. Carpenter and G. Penn, ALE 3.2 User's Guide), in this project's own profile: `specs/Grammar.antt` has them.
#![tactic(auto)]

mod description_reader;
mod error;
mod goal_reader;
mod goal_term;
mod laws;
mod lexeme;
mod lexer;
mod list;
mod place;
mod read;
mod several;
mod symbol;
mod term;

pub use error::ReadError;
pub use goal_term::GoalTerm;
pub use laws::one_reading;
pub use lexeme::Lexeme;
pub use lexer::lexemes;
pub use list::{add, joined};
pub use place::{atom_at, is_word, past, past_word, variable_at};
pub use read::{atoms, call, description, element, goal, goal_element};
pub use symbol::Symbol;
pub use term::Term;
