//! What a search has come to.

/// What a search has come to.
#[derive(Clone, Copy)]
pub enum Status {
    /// The pieces spell the word.
    Found,
    /// There is no way to fit.
    Fails,
    /// There is more to try.
    Goes,
}
