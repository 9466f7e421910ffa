use ale_graph::Closed;
use ale_signature::Row;

/// What a search found: the closure of a state in which nothing is left to impose, and the node of each
/// slot whose variable is bound.
#[derive(Debug, Drop)]
pub struct Answer {
    pub closed: Closed,
    pub env: Row<Option<usize>>,
}
