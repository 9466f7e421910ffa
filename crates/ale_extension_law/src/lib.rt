//! Laws of structures that grow or are put together: what stays in extensions, what the facts of a structure that is
//! put among others say, the words of phrases, and that all of an answer is a part of it.
#![tactic(auto)]

mod laws;

pub use laws::{put_law, spelling_law, stays_law, visible_stays_law, whole_law};
