//! What commands ask for, and the laws of the replies to them.
#![tactic(auto)]

mod laws;
mod task;

pub use laws::{shown_law, task_law, texts_law};
pub use task::{Printed, Task};
