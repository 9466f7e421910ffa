//! Descriptions in which macro calls and lists still stand: what they stand for, which macros they call, and how large they
//! are when all is put in.
#![tactic(auto)]

mod calls;
mod counting;
mod depth;
mod laws;
mod library;
mod macros;
mod projecting;
mod reaching;
mod tally;
mod template;

pub use ale_list::ListTypes;
pub use laws::library_law;
pub use library::{Built, Library};
pub use macros::Macro;
pub use template::Template;
