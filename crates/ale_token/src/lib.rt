//! Tokens of grammar and command files, and the declarations that they are cut into.
//!
//! The tokens are those of the language of ALE, the Attribute Logic Engine (B. Carpenter and G. Penn,
//! ALE 3.2 User's Guide), in this project's own profile: `specs/Pieces.antt` has the table.
#![tactic(auto)]

mod character;
mod cut;
mod names;
mod pieces;
mod scan;
mod spans;
mod symbols;
mod token;

pub use cut::{cut_declarations, one_cutting};
pub use names::{name, quoted_names};
pub use scan::{one_reading, tokens};
pub use token::{Kind, Token, TokenError};
