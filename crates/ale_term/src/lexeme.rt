//! Lexemes.
use crate::symbol::Symbol;
use ale_text::Text;

/// What a token stands for to the grammar.
#[derive(Debug, Drop)]
pub enum Lexeme {
    /// A plain name.
    Atom(Text),
    /// A name that was written between quotes, without them. A word of the language is never one.
    Quoted(Text),
    /// A variable.
    Variable(Text),
    /// The digits of a number.
    Number(Text),
    /// A symbol.
    Sign(Symbol),
    /// A character or a text that no form has.
    Other,
    /// The end of a declaration or a command.
    End,
}
