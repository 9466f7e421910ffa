use ale_signature::{FeatId, Row, TypeId};
use sqlite_items::{Boxed, Items};

/// A description of a node.
#[derive(Debug, Drop)]
pub enum Desc {
    /// The node is of this type, or a more specific one.
    OfType(TypeId),
    /// The variable with this slot stands for the node.
    Slot(u32),
    /// The node's value by this feature is as described.
    At(FeatId, Boxed<Desc>),
    /// Each of these holds.
    All(Items<Desc>),
    /// At least one of these holds.
    Any(Items<Desc>),
    /// It holds at some other node.
    Differs(Boxed<Desc>),
    /// Both paths of features are there, and end at one node.
    Meet(Row<FeatId>, Row<FeatId>),
}
