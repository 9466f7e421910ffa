//! What a walk has come to, and what is still to be done.
use ale_logic::Desc;
use ale_macro::Template;
use ale_signature::FeatId;

/// What is still to be done with a description once it is finished.
#[derive(Drop)]
pub enum Rest<'a> {
    /// It is the value of this feature.
    At(&'a FeatId),
    /// It holds at some other node.
    Differs,
    /// It is a conjunct: those before it, those after it, and their frame.
    All(Vec<Desc>, &'a [Template], usize),
    /// It is a disjunct, likewise.
    Any(Vec<Desc>, &'a [Template], usize),
    /// It is a member of a list: the members after it, what is described last, and their frame.
    Head(&'a [Template], &'a Template, usize),
    /// It is the list that follows this member.
    Tail(Desc),
}

/// What a walk has come to.
#[derive(Drop)]
pub enum Now<'a> {
    /// A template, in the frame with this number.
    Look(&'a Template, usize),
    /// A description that is finished.
    Have(Desc),
}
