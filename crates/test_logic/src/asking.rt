//! What is asked of written descriptions.
ghost use Rattle.std.specs.Prelude.{IfOk};
ghost use Rattle.ale_hierarchy.specs.Order.{hierarchy};
ghost use Rattle.ale_logic.specs.Descriptions.{description, FitsDescription};
ghost use Rattle.ale_describe.specs.Laws.{FitsNames};

use crate::meanings::{Described, Refusal, meaning_of};
use crate::refusals::push_refusal;
use crate::searches::{push_part, push_search};
use crate::writing::push_meaning;
use ale_describe::Names;
use ale_form::whole_description;
use ale_naming::names_of;
use ale_signature::Signature;
use ale_term::{Lexeme, Term, lexemes};
use ale_token::tokens;
use std::alloc::{AllocError, Global};

/// What is asked of a description.
#[derive(Clone, Copy)]
pub enum Question {
    /// What it means.
    Meaning,
    /// What a search for it finds with so many visits.
    Search(u64),
    /// The part of the output of a command that asks for it with so many visits.
    Part(u64),
}

/// The budget that a text is; 0 where it is no number.
pub fn budget_of(text: &str) -> u64 {
    text.parse::<u64>().unwrap_or(0)
}

/// Writes what is asked of a description that has a meaning.
fn push_found(
    alloc: Global,
    sig: &Signature,
    found: &Described,
    question: Question,
    out: &mut String,
) -> Result<(), AllocError>
    requires { FitsDescription (hierarchy sig.now) found.now.slots (description found.now.desc) }
{
    let slots = found.slots;
    match question {
        Question::Meaning => push_meaning(sig, found, out),
        Question::Search(budget) => push_search(alloc, sig, &found.desc, slots, budget, out),
        Question::Part(budget) => push_part(alloc, sig, &found.desc, slots, budget, out),
    }
}

/// Writes what is asked of a description, or why it has no meaning.
fn push_described(
    alloc: Global,
    sig: &Signature,
    described: &Result<Described, Refusal>,
    question: Question,
    out: &mut String,
) -> Result<(), AllocError>
    requires { IfOk described.now (λ d. FitsDescription (hierarchy sig.now) d.slots (description d.desc)) }
{
    match described {
        Ok(found) => push_found(alloc, sig, found, question, out),
        Err(refusal) => push_refusal(refusal, out),
    }
}

/// Writes what is asked of a written description by what names mean.
fn push_named(
    alloc: Global,
    sig: &Signature,
    names: &Names,
    term: &Term,
    question: Question,
    out: &mut String,
) -> Result<(), AllocError>
    requires { FitsNames sig.now names.now }
{
    let found = meaning_of(alloc, sig, names, term)?;
    push_described(alloc, sig, &found, question, out)
}

/// Writes what is asked of a written description in a grammar that has no macros.
fn push_term(
    alloc: Global,
    sig: &Signature,
    term: &Term,
    question: Question,
    out: &mut String,
) -> Result<(), AllocError> {
    match &names_of(alloc, sig, &[]) {
        Ok(names) => push_named(alloc, sig, names, term, question, out),
        Err(_) => out.push_str("no names\n"),
    }
}

/// Writes what is asked of the description that lexemes are.
fn push_lexemes(
    alloc: Global,
    sig: &Signature,
    list: &[Lexeme],
    question: Question,
    out: &mut String,
) -> Result<(), AllocError> {
    match &whole_description(alloc, list) {
        Ok(term) => push_term(alloc, sig, term, question, out),
        Err(_) => out.push_str("no description\n"),
    }
}

/// The lexemes of a text; none where it has no tokens.
fn lexemes_of(alloc: Global, text: &str) -> Result<Vec<Lexeme>, AllocError> {
    match tokens(alloc, text) {
        Ok(list) => lexemes(alloc, text, list.as_slice()),
        Err(_) => Ok(Vec::new(alloc)),
    }
}

/// What is asked of the description that a text is.
pub fn asked(
    alloc: Global,
    sig: &Signature,
    text: &str,
    question: Question,
) -> Result<String, AllocError> {
    let found = lexemes_of(alloc, text)?;
    let mut out = String::new(alloc);
    push_lexemes(alloc, sig, found.as_slice(), question, &mut out)?;
    Ok(out)
}
