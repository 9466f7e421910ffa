use ale_signature::{FeatId, Row, TypeId};

/// A node of a graph: its type, and the value by each of its features.
#[derive(Debug, Drop)]
pub struct Node {
    pub of: TypeId,
    pub values: Row<(FeatId, usize)>,
}
