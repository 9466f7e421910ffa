use std::alloc::{AllocError, Global};

/// Where the nodes of one graph must go in another one, as far as is known, and the nodes whose values have
/// not been looked at.
#[derive(Drop)]
pub(crate) struct Walk {
    pub(crate) images: Vec<Option<usize>>,
    pub(crate) waiting: Vec<usize>,
}
