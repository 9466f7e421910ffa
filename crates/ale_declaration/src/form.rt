//! The names of the forms.

/// The forms of declarations other than directives, in the order in which they are tried.
#[derive(Clone, Copy, Debug, PartialEq, Eq)]
pub enum Form {
    /// `t sub [..]`, with `intro [..]` or without, and `t intro [..]`.
    Types,
    /// `ext([..])`.
    Extensional,
    /// `t cons D` and `t cons D goal G`.
    Constraints,
    /// `m macro D` and `m(X,..) macro D`.
    Macros,
    /// `p if G` and `p(D,..) if G`.
    Clauses,
    /// `w ---> D`.
    Words,
    /// `empty D`.
    Empties,
    /// `n lex_rule D **> D morphs ..`, with `if G` before `morphs` or without.
    LexicalRules,
    /// `n rule D ===> ..`.
    Rules,
    /// `semantics p`.
    Semantic,
}
