//! The printed text of typed feature structures.
//!
//! The text is in the style of the ALE 3.2 User's Guide (B. Carpenter and G. Penn), with tags for shared nodes;
//! its exact form is this project's own.
#![tactic(auto)]

mod answer;
mod flags;
mod laws;
mod line;
mod name;
mod pairs;
mod tags;
mod text;
mod walk;

pub use answer::print_answer;
pub use laws::{printed_names, texts_tell, visible_texts};
pub use line::{Line, Place, Shown, Stop};
pub use name::print_name;
