use ale_signature::FeatId;

/// Where a line of the text stands.
#[derive(Clone, Copy, Debug)]
pub enum Place {
    /// At the start of a line, as the root with this number.
    Root(usize),
    /// So many levels deep, as the value by this feature.
    Value(usize, FeatId),
    /// At the start of a line, as a node of a differing pair that no line has had before.
    Also,
}

/// What a line shows.
#[derive(Clone, Copy, Debug)]
pub enum Shown {
    /// That a root is unbound.
    Unbound,
    /// A node that is met for the first time.
    First(usize),
    /// A node that was met before.
    Again(usize),
}

/// A line of the text.
#[derive(Clone, Copy, Debug)]
pub struct Line {
    pub place: Place,
    pub shown: Shown,
}

/// A stop of the walk: a place, and the node that is met there; none where a root is unbound.
#[derive(Clone, Copy, Debug)]
pub struct Stop {
    pub place: Place,
    pub node: Option<usize>,
}
