//! Clauses and constraints.
use crate::goal::Goal;
use ale_logic::Desc;
use ale_signature::TypeId;
use ale_text::{Row, Text};

/// A clause: what is derived of nodes at which its descriptions hold, where its body is.
#[derive(Debug, Drop)]
pub struct Clause {
    /// The description of each argument.
    pub args: Row<Desc>,
    pub body: Goal,
    /// How many slots its variables have.
    pub slots: u32,
}

/// A predicate, by its name and its number of arguments.
#[derive(Debug, Drop)]
pub struct Pred {
    pub name: Text,
    /// How many arguments it has.
    pub arity: u32,
    /// Its clauses, as they are written.
    pub clauses: Row<Clause>,
}

/// A constraint on a type: of each node of the type the description holds, and the goal, where there is one, is derived.
#[derive(Debug, Drop)]
pub struct Constraint {
    pub at: TypeId,
    pub desc: Desc,
    pub goal: Option<Goal>,
    /// How many slots its variables have.
    pub slots: u32,
}
