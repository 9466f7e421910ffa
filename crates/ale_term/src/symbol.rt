//! Symbols of the language.

/// A symbol of the language.
#[derive(Clone, Copy, Debug, PartialEq, Eq)]
pub enum Symbol {
    /// `===>`, between the mother and the elements of a rule.
    RuleArrow,
    /// `--->`, between a word and its description.
    WordArrow,
    /// `+++>`, which the language has no form for.
    FunctionArrow,
    /// `**>`, between the input and the output of a lexical rule.
    LexRuleArrow,
    /// `=\=`, before a description of another node.
    OtherThan,
    /// `==`, between two paths.
    SamePath,
    /// `=@`, which the language has no form for.
    Identical,
    /// `:-`, before a directive.
    Neck,
    /// `->`, between the condition and what follows from it.
    Then,
    /// `\+`, before a goal that must not be proved.
    NotProved,
    /// `=`, between two descriptions of one node.
    Equals,
    /// `:`, between a feature and its value.
    Colon,
    /// `,`
    Comma,
    /// `;`
    Semicolon,
    /// `(`
    OpenRound,
    /// `)`
    CloseRound,
    /// `[`
    OpenSquare,
    /// `]`
    CloseSquare,
    /// `|`, before the rest of a list.
    Bar,
    /// `@`, before a macro.
    MacroSign,
    /// `!`, the cut.
    Exclamation,
    /// `/`, between a name and its number of arguments.
    Slash,
    /// `>`, after the kind of an element of a rule.
    Greater,
}
