//! Morphisms between typed feature structures, by which one subsumes another, and the visible part of one.
#![tactic(auto)]

mod laws;
mod matching;
mod morphism;
mod order;
mod rooted;
mod seen;
mod subsumption;
mod walk;

pub use laws::{morphism_laws, visible_laws};
pub use morphism::is_morphism;
pub use rooted::{is_rooted, types_inside};
pub use seen::visible;
pub use subsumption::subsumes;
