//! Rules and their elements.
use crate::goal::Goal;
use ale_logic::Desc;
use ale_text::{Row, Text};

/// An element of a rule. What is left of a list of categories stands in chart items alone, whose elements have a type of their own.
#[derive(Debug, Drop)]
pub enum Element {
    /// A category.
    Cat(Desc),
    /// A list of categories.
    Cats(Desc),
    /// A goal, which has no words.
    Goal(Goal),
    /// The category that is the semantic head.
    Head(Desc),
}

/// A rule: a category at which the mother's description holds has the words of the elements, one after the other.
#[derive(Debug, Drop)]
pub struct Rule {
    pub name: Text,
    pub mother: Desc,
    pub elements: Row<Element>,
    /// How many slots its variables have.
    pub slots: u32,
}
