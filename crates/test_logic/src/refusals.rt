//! Why descriptions stand for none, as lines: the word of the refusal, and what it is of.
use crate::meanings::Refusal;
use ale_text::Text;
use ale_vocabulary::NameError;
use std::alloc::AllocError;

/// Writes a space and a name.
fn push_name(name: &Text, out: &mut String) -> Result<(), AllocError> {
    let name = name.as_str();
    write!(out, " {name}")
}

/// Writes a space, and the name and number of arguments of a macro or a predicate.
fn push_key(name: &Text, arity: usize, out: &mut String) -> Result<(), AllocError> {
    let name = name.as_str();
    write!(out, " {name}/{arity}")
}

/// Writes what a refusal is of.
fn push_of(error: &NameError, out: &mut String) -> Result<(), AllocError> {
    match error {
        NameError::UnknownType(name)
        | NameError::UnknownFeature(name)
        | NameError::TwoHeads(name)
        | NameError::NoDaughter(name)
        | NameError::BadDirective(name) => push_name(name, out),
        NameError::UnknownMacro(name, arity)
        | NameError::MacroTwice(name, arity)
        | NameError::MacroCycle(name, arity)
        | NameError::UnknownPredicate(name, arity) => push_key(name, *arity, out),
        NameError::TooBig | NameError::NoListTypes => Ok(()),
    }
}

/// Writes the refusal of a name.
fn push_error(error: &NameError, out: &mut String) -> Result<(), AllocError> {
    write!(out, "{error}")?;
    push_of(error, out)?;
    out.push('\n')
}

/// Writes why a description stands for none.
pub fn push_refusal(refusal: &Refusal, out: &mut String) -> Result<(), AllocError> {
    match refusal {
        Refusal::Unbuilt => out.push_str("not built\n"),
        Refusal::Name(error) => push_error(error, out),
    }
}
