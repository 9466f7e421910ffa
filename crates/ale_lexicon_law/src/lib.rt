//! The law of the lexicon: what its entries and empty categories mean, at all levels of its lexical
//! rules, and what a budget is to it.
#![tactic(auto)]

mod laws;

pub use laws::{lexicon_budget_law, lexicon_law};
