//! Tables of test cases: the program of a room reads its cases from its standard input and compares its answers.
//!
//! A case is a block of lines: `CALL: TEXT`, `+ TEXT` for each further text, and `= LINE` for each line that the call
//! is to answer. Lines after `#` are comments; `expand` has the escapes.
#![tactic(auto)]

mod cases;
mod escapes;
mod trial;

pub use cases::Case;
pub use escapes::{bytes_of, expand};
pub use trial::{Room, try_cases};
