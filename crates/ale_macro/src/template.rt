//! Descriptions whose names were looked up.
use ale_signature::{FeatId, TypeId};
use ale_text::Row;
use sqlite_items::{Boxed, Items};

/// A description whose names were looked up, in the scope of a declaration. Its macro calls and lists still stand.
#[derive(Debug, Drop)]
pub enum Template {
    /// The node is of this type, or a more specific one.
    OfType(TypeId),
    /// The variable with this number in its scope. The first numbers are those of a macro's parameters.
    Variable(u32),
    /// The node's value by this feature is as described.
    At(FeatId, Boxed<Template>),
    /// Each of these holds.
    All(Items<Template>),
    /// At least one of these holds.
    Any(Items<Template>),
    /// It holds at some other node.
    Differs(Boxed<Template>),
    /// Both paths of features are there, and end at one node.
    Meet(Row<FeatId>, Row<FeatId>),
    /// The call with this number in its scope, of the macro with this number, with these arguments.
    Call(u32, u32, Items<Template>),
    /// The list of these members, and then what is described last.
    Cells(Items<Template>, Boxed<Template>),
}
