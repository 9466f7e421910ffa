//! Type signatures: appropriateness over a type hierarchy, for what is declared and accepted.
#![tactic(auto)]

mod laws;
mod restrictions;
mod signature;
mod sizes;
mod witnesses;

pub use ale_declared::{Mention, Outline, SigDecl, numbering_law};
pub use ale_hierarchy::{FeatId, SigError, TypeId};
pub use ale_text::{Row, Text};
pub use laws::{acceptance_law, fault_law, signature_law};
pub use signature::Signature;
