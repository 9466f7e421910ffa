//! What is said of words.
use crate::goal::Goal;
use ale_logic::Desc;
use ale_morph::Line;
use ale_text::{Row, Text};

/// A word, and the description of a category of it.
#[derive(Debug, Drop)]
pub struct WordDecl {
    pub word: Text,
    pub desc: Desc,
    /// How many slots its variables have.
    pub slots: u32,
}

/// A description of a category without a word.
#[derive(Debug, Drop)]
pub struct EmptyDecl {
    pub desc: Desc,
    /// How many slots its variables have.
    pub slots: u32,
}

/// A lexical rule: it makes of an entry at which its input holds one at which its output holds, where its goal, if there is
/// one, is derived, and its lines make a word of the entry's.
#[derive(Debug, Drop)]
pub struct LexRule {
    pub name: Text,
    pub input: Desc,
    pub output: Desc,
    pub goal: Option<Goal>,
    pub lines: Row<Line>,
    /// How many slots the variables of its descriptions and its goal have. Those of a line are numbered apart.
    pub slots: u32,
}
