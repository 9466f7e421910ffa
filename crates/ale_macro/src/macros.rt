//! Macros.
use crate::template::Template;

/// A macro: what its calls are replaced by.
#[derive(Debug, Drop)]
pub struct Macro {
    /// How many parameters it has: the first variables of its body.
    pub parameters: u32,
    /// What a call of it stands for.
    pub body: Template,
}
