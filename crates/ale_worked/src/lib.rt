//! Worked examples over the definitions of the logic: a sample grammar that meets the premises of the laws, and
//! searches, a lexicon, parses and a generation with their answers and visits.
#![tactic(auto)]

mod laws;

pub use laws::{premises_law, search_examples, words_examples};
