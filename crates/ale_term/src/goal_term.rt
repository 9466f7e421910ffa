//! Goals as they are written.
use crate::term::Term;
use ale_text::Text;
use sqlite_items::{Boxed, Items};

/// A goal as it is written, by names.
#[derive(Debug, Drop)]
pub enum GoalTerm {
    /// `true`: holds.
    Yes,
    /// `!`: cuts.
    Cut,
    /// `G, G, ..`: each of these, two or more.
    All(Items<GoalTerm>),
    /// `G; G; ..`: one of these, two or more.
    Any(Items<GoalTerm>),
    /// `D = D`: one node is as both describe.
    Equal(Term, Term),
    /// `p` or `p(D,..)`: the predicate with this name, with these arguments.
    Call(Text, Items<Term>),
    /// `\+ G`: it is not proved.
    Not(Boxed<GoalTerm>),
    /// `G -> G ; G`: where the first is proved, the second, else the third.
    IfElse(Boxed<GoalTerm>, Boxed<GoalTerm>, Boxed<GoalTerm>),
    /// `G -> G`: where the first is proved, once, the second.
    Once(Boxed<GoalTerm>, Boxed<GoalTerm>),
}
