//! What is still to be done in a state, and what remains of a rule.
use ale_logic::Desc;
use ale_program::Goal;
use ale_signature::FeatId;

/// What is demanded of a node.
#[derive(Clone, Copy)]
pub enum Demand<'a> {
    /// The description holds at it, in the environment with this number.
    Holds(usize, &'a Desc),
    /// The path from it, and the other path from the other node, end at one node.
    EndsWith(&'a [FeatId], usize, &'a [FeatId]),
    /// The path from it ends at the other node.
    Leads(&'a [FeatId], usize),
}

/// What holds at the end of a list: the description at the node.
#[derive(Clone, Copy)]
pub struct End<'a> {
    pub node: usize,
    pub desc: &'a Desc,
}

/// What is still to be done.
#[derive(Clone, Copy)]
pub enum Item<'a> {
    /// The demand of the node.
    On(usize, Demand<'a>),
    /// The demand of the value of the node by the feature.
    Take(usize, &'a FeatId, Demand<'a>),
    /// The goal is derived, in the environment with the first number, and with the second as its cut height.
    Derive(usize, usize, &'a Goal),
    /// The predicate with the first number is called of nodes: the second number is that of the first, the third
    /// how many there are, one after the other.
    Called(u32, usize, usize),
    /// All but so many of the states that wait are dropped.
    Cuts(usize),
    /// Nothing comes of the state.
    Stop,
    /// The node is an open list, whose members are the next elements; where it ends and no element remains, the
    /// description holds at a node.
    Split(usize, Option<End<'a>>),
}

/// An element that remains of a rule.
#[derive(Clone, Copy)]
pub enum Element<'a> {
    /// One of the rule's own.
    Own(&'a ale_program::Element),
    /// The first member of the list that the node is.
    Member(usize),
    /// The list of the others.
    Tail(usize),
}
