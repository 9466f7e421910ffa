//! Grammars that are loaded, and the refusals of others.
use crate::names::{push_name_error, push_named};
use ale_form::FormError;
use ale_load::{GrammarError, Loaded, Passed, load};
use ale_signature::SigError;
use ale_text::Text;
use ale_token::TokenError;
use std::alloc::{AllocError, Global};
use test_support::bytes_of;

/// Writes the directives that were passed over.
fn push_passed(passed: &[Passed], out: &mut String) -> Result<(), AllocError> {
    for directive in passed {
        let number = directive.declaration;
        let name = directive.name.as_str();
        write!(out, ", {number} {name}")?;
    }
    Ok(())
}

/// Writes how many types and features there are, and the directives that were passed over.
fn push_loaded(loaded: &Loaded, out: &mut String) -> Result<(), AllocError> {
    let types = loaded.signature.type_count();
    let features = loaded.signature.feat_count();
    write!(out, "{types} types, {features} features")?;
    push_passed(loaded.passed.as_slice(), out)
}

/// Writes why a text has no tokens.
fn push_token_error(error: &TokenError, out: &mut String) -> Result<(), AllocError> {
    match error {
        TokenError::BadToken(place) => write!(out, "BadToken {place}"),
        TokenError::NoEnd(place) => write!(out, "NoEnd {place}"),
        TokenError::NoMemory => out.push_str("NoMemory"),
    }
}

/// Writes why a declaration is none.
fn push_form_error(error: &FormError, out: &mut String) -> Result<(), AllocError> {
    match error {
        FormError::TooDeep => out.push_str("TooDeep"),
        FormError::OutOfProfile(word) => {
            out.push_str("OutOfProfile ")?;
            out.push_str(word.as_str())
        }
        FormError::NotADeclaration => out.push_str("NotADeclaration"),
        FormError::NoMemory => out.push_str("NoMemory"),
    }
}

/// Writes a space and a name.
fn push_name(name: &Text, out: &mut String) -> Result<(), AllocError> {
    out.push_str(" ")?;
    out.push_str(name.as_str())
}

/// Writes why types have no signature.
fn push_sig_error(error: &SigError, out: &mut String) -> Result<(), AllocError> {
    match error {
        SigError::TooManyTypes => out.push_str("TooManyTypes"),
        SigError::TooManyFeatures => out.push_str("TooManyFeatures"),
        SigError::SubCycle(name) => push_named("SubCycle", name, out),
        SigError::NoJoin(one, other, first, second) => {
            push_named("NoJoin", one, out)?;
            push_name(other, out)?;
            push_name(first, out)?;
            push_name(second, out)
        }
        SigError::TwoIntros(feature, one, other) => {
            push_named("TwoIntros", feature, out)?;
            push_name(one, out)?;
            push_name(other, out)
        }
        SigError::ValueClash(of, feature) => {
            push_named("ValueClash", of, out)?;
            push_name(feature, out)
        }
        SigError::Loop(name) => push_named("Loop", name, out),
        SigError::ExtNotMaximal(name) => push_named("ExtNotMaximal", name, out),
        SigError::FillTooLarge(name) => push_named("FillTooLarge", name, out),
        SigError::NoMemory => out.push_str("NoMemory"),
    }
}

/// Writes why a grammar is refused.
fn push_error(error: &GrammarError, out: &mut String) -> Result<(), AllocError> {
    match error {
        GrammarError::TooLong => out.push_str("TooLong"),
        GrammarError::NotText(place) => write!(out, "NotText {place}"),
        GrammarError::Token(error) => push_token_error(error, out),
        GrammarError::Form(number, error) => {
            write!(out, "{number} ")?;
            push_form_error(error, out)
        }
        GrammarError::NotBuilt(number) => write!(out, "{number} NotBuilt"),
        GrammarError::Signature(error) => push_sig_error(error, out),
        GrammarError::Names(number, error) => {
            write!(out, "{number} ")?;
            push_name_error(error, out)
        }
        GrammarError::NoMemory => out.push_str("NoMemory"),
    }
}

/// Writes what a grammar is loaded as.
fn push_load(alloc: Global, bytes: &[u8], out: &mut String) -> Result<(), AllocError> {
    match load(alloc, bytes) {
        Ok(loaded) => push_loaded(&loaded, out),
        Err(error) => push_error(&error, out),
    }
}

/// What a grammar is loaded as.
pub fn loaded(alloc: Global, text: &str) -> Result<String, AllocError> {
    let bytes = bytes_of(alloc, text)?;
    let mut out = String::new(alloc);
    push_load(alloc, bytes.as_slice(), &mut out)?;
    out.push('\n')?;
    Ok(out)
}
