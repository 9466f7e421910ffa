//! What a command asks for.
use ale_logic::Desc;
use ale_program::Goal;
use ale_text::{Row, Text};

/// The variables of a goal that are printed.
#[derive(Debug, Drop)]
pub struct Printed {
    /// The name of each, as it is written.
    pub names: Row<Text>,
    /// The slot of each, in the same order.
    pub slots: Row<usize>,
}

/// What a command asks for, with how many slots its variables have.
#[derive(Debug, Drop)]
pub enum Task {
    /// The most general satisfiers of the description.
    Mgsat(Desc, usize),
    /// The answers to the goal, of which these variables are printed.
    Query(Goal, usize, Printed),
}
