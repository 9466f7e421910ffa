//! Lines of morphology and their pieces.

use ale_text::{Row, Text};

/// A part of a side of a line.
#[derive(Debug, Drop)]
pub enum Piece {
    /// Letters that stand for themselves.
    Letters(Text),
    /// A slot, by its number: it stands for a text of at least one character, the same one wherever the slot
    /// stands in the line.
    Slot(u32),
}

/// A line of morphology: a word that the left side spells becomes the word that the right side spells.
#[derive(Debug, Drop)]
pub struct Line {
    pub left: Row<Piece>,
    pub right: Row<Piece>,
}
