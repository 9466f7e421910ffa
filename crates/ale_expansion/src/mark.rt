//! What stands somewhere in a scope, told by numbers.

/// A variable or a call of a scope, by the number of the path of calls that leads to the scope and its number there.
#[derive(Clone, Copy, PartialEq, Eq, Hash)]
pub struct Mark {
    pub path: usize,
    pub number: u32,
}
