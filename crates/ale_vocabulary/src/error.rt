//! Why a name, a macro, a rule or a directive is refused.
use ale_text::Text;
use thiserror::Error;

/// Why a declaration or a command is refused after it was read. A macro and a predicate are told by name and number of arguments.
#[derive(Debug, Drop, Error)]
pub enum NameError {
    /// A name where a type stands is that of no type.
    #[error("UnknownType")]
    UnknownType(Text),
    /// A name where a feature stands is that of no feature.
    #[error("UnknownFeature")]
    UnknownFeature(Text),
    /// No macro has this name and number of parameters.
    #[error("UnknownMacro")]
    UnknownMacro(Text, usize),
    /// An earlier macro has this name and number of parameters.
    #[error("MacroTwice")]
    MacroTwice(Text, usize),
    /// Calls of this macro lead back to it.
    #[error("MacroCycle")]
    MacroCycle(Text, usize),
    /// A description has more than 100,000 parts or is nested more than 4,000 deep when all macros are put in, or all
    /// descriptions up to here have more than 4,000,000 parts.
    #[error("TooBig")]
    TooBig,
    /// No clause has this name and number of arguments.
    #[error("UnknownPredicate")]
    UnknownPredicate(Text, usize),
    /// A list stands where the signature has no types and features of lists.
    #[error("NoListTypes")]
    NoListTypes,
    /// The rule with this name has two semantic heads.
    #[error("TwoHeads")]
    TwoHeads(Text),
    /// The rule with this name has no daughter.
    #[error("NoDaughter")]
    NoDaughter(Text),
    /// The number of this directive is out of its limit, or it was given before.
    #[error("BadDirective")]
    BadDirective(Text),
}
