//! Descriptions as they are written.
use ale_text::{Row, Text};
use sqlite_items::{Boxed, Items};

/// A description as it is written, by names.
#[derive(Debug, Drop)]
pub enum Term {
    /// `t`: the node is of the type with this name.
    Name(Text),
    /// `X`: the node is the one that this variable stands for.
    Slot(Text),
    /// `f:D`: the node's value by the feature with this name is as described.
    At(Text, Boxed<Term>),
    /// `D, D, ..`: each of these, two or more, holds.
    All(Items<Term>),
    /// `D; D; ..`: one of these, two or more, holds.
    Any(Items<Term>),
    /// `=\= D`: the node is another one than what is described.
    Differs(Boxed<Term>),
    /// `[f,..] == [g,..]`: the two paths of features lead to one node.
    Meet(Row<Text>, Row<Text>),
    /// `@ m` or `@ m(D,..)`: the macro with this name, with these arguments.
    Macro(Text, Items<Term>),
    /// `[D,..]` or `[D,.. | D]`: the list of these, with the rest where there is one.
    List(Items<Term>, Option<Boxed<Term>>),
}
