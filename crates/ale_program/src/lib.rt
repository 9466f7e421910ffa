//! Programs: goals, clauses, constraints, words, lexical rules and rules over one signature, what their type keeps, and
//! whether they are inside the fragment.
#![tactic(auto)]

mod clause;
mod element;
mod fragment;
mod goal;
mod lexical;
mod parts;
mod program;

pub use clause::{Clause, Constraint, Pred};
pub use element::{Element, Rule};
pub use goal::Goal;
pub use lexical::{EmptyDecl, LexRule, WordDecl};
pub use parts::{DEFAULT_CHAIN_LENGTH, DEFAULT_LEX_DEPTH, Parts};
pub use program::Program;
