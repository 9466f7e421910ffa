//! The defined search over a whole program, which stops at each answer; and one for what satisfies a description, over the
//! program that says nothing, which finds all at once.
#![tactic(auto)]

mod advancing;
mod answers;
mod choosing;
mod finding;
mod laws;
mod next_laws;
mod searching;
mod starting;
mod state;
mod stepping;
mod visiting;

pub use answers::{Answer, Next};
pub use finding::{Found, find};
pub use laws::search_law;
pub use next_laws::{next_law, told_law};
pub use searching::Search;
