//! Lists and texts that contracts see as what they hold.
#![tactic(auto)]

mod row;
mod text;

pub use row::Row;
pub use text::Text;
