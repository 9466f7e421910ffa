//! The faults of names.
use ale_text::Text;
use ale_vocabulary::NameError;
use std::alloc::AllocError;

/// Writes a word and a name.
fn push_named(word: &str, name: &Text, out: &mut String) -> Result<(), AllocError> {
    let name = name.as_str();
    write!(out, "{word} {name}")
}

/// Writes a word and a macro or a predicate.
fn push_key(word: &str, name: &Text, arity: usize, out: &mut String) -> Result<(), AllocError> {
    let name = name.as_str();
    write!(out, "{word} {name}/{arity}")
}

/// Writes a fault of names: its word, and what it is of.
pub fn push_name_error(error: &NameError, out: &mut String) -> Result<(), AllocError> {
    match error {
        NameError::UnknownType(name) => push_named("UnknownType", name, out),
        NameError::UnknownFeature(name) => push_named("UnknownFeature", name, out),
        NameError::UnknownMacro(name, arity) => push_key("UnknownMacro", name, *arity, out),
        NameError::MacroTwice(name, arity) => push_key("MacroTwice", name, *arity, out),
        NameError::MacroCycle(name, arity) => push_key("MacroCycle", name, *arity, out),
        NameError::TooBig => out.push_str("TooBig"),
        NameError::UnknownPredicate(name, arity) => {
            push_key("UnknownPredicate", name, *arity, out)
        }
        NameError::NoListTypes => out.push_str("NoListTypes"),
        NameError::TwoHeads(name) => push_named("TwoHeads", name, out),
        NameError::NoDaughter(name) => push_named("NoDaughter", name, out),
        NameError::BadDirective(name) => push_named("BadDirective", name, out),
    }
}
