//! Which forms of the language are built so far.
#![tactic(auto)]

mod command;
mod declaration;
mod goal;
mod stage;
mod term;

pub use command::command_is_built;
pub use declaration::declaration_is_built;
pub use stage::STAGE;
pub use term::is_built;
