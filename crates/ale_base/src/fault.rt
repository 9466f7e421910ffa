//! The answer of a call to the outside that failed.
use thiserror::Error;

/// A call to the outside failed. It comes exactly where the count of faults of the files or of the sink
/// rose in that call.
#[derive(Clone, Copy, Debug, PartialEq, Eq, Error)]
#[error("Failed")]
pub struct Failed;
