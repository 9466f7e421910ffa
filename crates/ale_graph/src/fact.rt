use ale_signature::{FeatId, TypeId};

/// What is told of the nodes of a state.
#[derive(Clone, Copy, Debug, PartialEq, Eq)]
pub enum Fact {
    /// The node is of this type, or a more specific one.
    OfType(usize, TypeId),
    /// The first node has the second as its value by this feature.
    Value(usize, FeatId, usize),
    /// Both are one node.
    Same(usize, usize),
    /// They are two nodes.
    Differ(usize, usize),
}
