//! What stands before the forms of declarations and commands: how deep lexemes nest, the words that are left out, and
//! forms that are all of the lexemes.
#![tactic(auto)]

mod admission;
mod error;
mod left_out;
mod level;
mod nesting;
mod number;
mod whole;

pub use admission::{check, formed};
pub use error::FormError;
pub use nesting::nesting_limit;
pub use number::{held_number, nine_digits, number_at};
pub use whole::{ended, whole_description, whole_goal, whole_path};
