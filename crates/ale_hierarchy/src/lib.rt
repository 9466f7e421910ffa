//! Type hierarchies: the subtype order and the joins of what is declared, what is asked of a declared signature,
//! and its faults by name.
#![tactic(auto)]

mod error;
mod fault;
mod ids;
pub mod joins;
mod lacking;
mod last;
mod naming;
mod order;
mod stop;
mod tops;
mod witnesses;

pub use error::SigError;
pub use fault::Fault;
pub use ids::{FeatId, TypeId};
pub use last::{check_ext, ext_flags};
pub use naming::refusal;
pub use order::{Order, first_cycle};
pub use stop::Stop;
pub use tops::most_general;
pub use witnesses::first_tops;
