//! The reading of descriptions. At most so many levels nest in what is read.
ghost use Rattle.std.specs.Prelude.{◌≡◌, Some, map, option_map, length};
ghost use Rattle.ale_term.specs.declared.symbol.Symbol.TheVariants.{Comma, Semicolon, SamePath};
ghost use Rattle.ale_term.specs.Results.{Gives};
ghost use Rattle.ale_term.specs.Terms.{term_data};
ghost use Rattle.ale_term.specs.Reading.{ended_by, more_at, path_at, part_at, parts_at, conjunction_at, disjunction_at, arguments_at, call_of, named_at, group_at, tail_at, items_at, signed_at, unnamed_at, simple_of};

use crate::error::ReadError;
use crate::lexeme::Lexeme;
use crate::list::{add, joined, path};
use crate::place::{atom_at, past, variable_at};
use crate::several::{all_of, any_of};
use crate::symbol::Symbol;
use crate::term::Term;
use ale_text::{Row, Text};
use sqlite_items::{Boxed, Items};
use std::alloc::Global;

/// A path before `==`, and what stands after that.
fn left_path(alloc: Global, lexemes: &[Lexeme]) -> Result<Option<(Row<Text>, &[Lexeme])>, ReadError>
    ensures { Gives (option_map (λ p. (p.0, p.1.now))) result (Some (ended_by SamePath (path_at lexemes.now))) }
{
    match path(alloc, lexemes) {
        Err(ReadError::NoMemory) => Err(ReadError::NoMemory),
        Err(ReadError::NotTheForm) => Ok(None),
        Ok((left, rest)) => match past(rest, Symbol::SamePath) {
            None => Ok(None),
            Some(behind) => Ok(Some((left, behind))),
        },
    }
}

/// A description of one part that is no equation of paths.
#[cycle(descriptions)]
pub(crate) fn simple<'a>(
    alloc: Global,
    lexemes: &'a [Lexeme],
    levels: usize,
) -> Result<(Term, &'a [Lexeme]), ReadError>
    ensures { Gives (λ p. (term_data p.0, p.1.now)) result (simple_of levels lexemes.now) }
{
    if levels == 0 {
        return Err(ReadError::NotTheForm);
    }
    if let Some((name, behind)) = atom_at(lexemes) {
        return named(alloc, name, behind, levels - 1);
    }
    unnamed(alloc, lexemes, levels - 1)
}

/// What doesn't begin with an atom.
#[cycle(descriptions)]
#[tactic(auto, using(crate::proofs::Terms::term_rules))]
fn unnamed<'a>(
    alloc: Global,
    lexemes: &'a [Lexeme],
    levels: usize,
) -> Result<(Term, &'a [Lexeme]), ReadError>
    ensures { Gives (λ p. (term_data p.0, p.1.now)) result (unnamed_at (simple_of levels) lexemes.now) }
{
    if let Some((name, behind)) = variable_at(lexemes) {
        return Ok((Term::Slot(name.copy(alloc)?), behind));
    }
    signed(alloc, lexemes, levels)
}

/// What begins with the atom, which stands before the lexemes.
#[cycle(descriptions)]
#[tactic(auto, using(crate::proofs::Terms::term_rules))]
fn named<'a>(
    alloc: Global,
    name: &Text,
    lexemes: &'a [Lexeme],
    levels: usize,
) -> Result<(Term, &'a [Lexeme]), ReadError>
    ensures { Gives (λ p. (term_data p.0, p.1.now)) result (named_at (simple_of levels) name.now lexemes.now) }
{
    match past(lexemes, Symbol::Colon) {
        None => Ok((Term::Name(name.copy(alloc)?), lexemes)),
        Some(behind) => {
            let (value, rest) = simple(alloc, behind, levels)?;
            Ok((Term::At(name.copy(alloc)?, Boxed::new(alloc, value)?), rest))
        }
    }
}

/// What begins with a symbol.
#[cycle(descriptions)]
#[tactic(auto, using(crate::proofs::Terms::term_rules))]
fn signed<'a>(
    alloc: Global,
    lexemes: &'a [Lexeme],
    levels: usize,
) -> Result<(Term, &'a [Lexeme]), ReadError>
    ensures { Gives (λ p. (term_data p.0, p.1.now)) result (signed_at (simple_of levels) lexemes.now) }
{
    if let Some(behind) = past(lexemes, Symbol::OtherThan) {
        let (other, rest) = simple(alloc, behind, levels)?;
        return Ok((Term::Differs(Boxed::new(alloc, other)?), rest));
    }
    if let Some(behind) = past(lexemes, Symbol::MacroSign) {
        let ((name, arguments), rest) = call_in(alloc, behind, levels)?;
        return Ok((Term::Macro(name, arguments), rest));
    }
    if let Some(inner) = past(lexemes, Symbol::OpenRound) {
        return group(alloc, inner, levels);
    }
    items(
        alloc,
        past(lexemes, Symbol::OpenSquare).ok_or(ReadError::NotTheForm)?,
        levels,
    )
}

/// A name, with arguments in round brackets where it has any.
#[cycle(descriptions)]
pub(crate) fn call_in<'a>(
    alloc: Global,
    lexemes: &'a [Lexeme],
    levels: usize,
) -> Result<((Text, Items<Term>), &'a [Lexeme]), ReadError>
    ensures { Gives (λ p. ((p.0.0, map term_data p.0.1), p.1.now)) result (call_of (simple_of levels) lexemes.now) }
{
    let (name, behind) = atom_at(lexemes).ok_or(ReadError::NotTheForm)?;
    let (found, rest) = arguments(alloc, behind, levels)?;
    Ok(((name.copy(alloc)?, found), rest))
}

/// The arguments in round brackets, or none.
#[cycle(descriptions)]
fn arguments<'a>(
    alloc: Global,
    lexemes: &'a [Lexeme],
    levels: usize,
) -> Result<(Items<Term>, &'a [Lexeme]), ReadError>
    ensures { Gives (λ p. (map term_data p.0, p.1.now)) result (arguments_at (simple_of levels) lexemes.now) }
{
    let Some(inner) = past(lexemes, Symbol::OpenRound) else {
        return Ok((Items::new(alloc), lexemes));
    };
    let (found, rest) = parts(alloc, inner, levels)?;
    let behind = past(rest, Symbol::CloseRound).ok_or(ReadError::NotTheForm)?;
    Ok((found, behind))
}

/// What stands in round brackets, of which the first stands before the lexemes.
#[cycle(descriptions)]
fn group<'a>(
    alloc: Global,
    lexemes: &'a [Lexeme],
    levels: usize,
) -> Result<(Term, &'a [Lexeme]), ReadError>
    ensures { Gives (λ p. (term_data p.0, p.1.now)) result (group_at (simple_of levels) lexemes.now) }
{
    let (term, rest) = disjunction(alloc, lexemes, levels)?;
    let behind = past(rest, Symbol::CloseRound).ok_or(ReadError::NotTheForm)?;
    Ok((term, behind))
}

/// A list, of which the first bracket stands before the lexemes.
#[cycle(descriptions)]
#[tactic(auto, using(crate::proofs::Terms::term_rules))]
fn items<'a>(
    alloc: Global,
    lexemes: &'a [Lexeme],
    levels: usize,
) -> Result<(Term, &'a [Lexeme]), ReadError>
    ensures { Gives (λ p. (term_data p.0, p.1.now)) result (items_at (simple_of levels) lexemes.now) }
{
    if let Some(behind) = past(lexemes, Symbol::CloseSquare) {
        return Ok((Term::List(Items::new(alloc), None), behind));
    }
    let (found, rest) = parts(alloc, lexemes, levels)?;
    tail(alloc, found, rest, levels)
}

/// The list of these items, with the rest that stands after a `|` where there is one.
#[cycle(descriptions)]
#[tactic(auto, using(crate::proofs::Terms::term_rules))]
fn tail<'a>(
    alloc: Global,
    found: Items<Term>,
    lexemes: &'a [Lexeme],
    levels: usize,
) -> Result<(Term, &'a [Lexeme]), ReadError>
    ensures { Gives (λ p. (term_data p.0, p.1.now)) result (tail_at (simple_of levels) (map term_data found) lexemes.now) }
{
    let Some(inner) = past(lexemes, Symbol::Bar) else {
        let behind = past(lexemes, Symbol::CloseSquare).ok_or(ReadError::NotTheForm)?;
        return Ok((Term::List(found, None), behind));
    };
    let (others, rest) = part(alloc, inner, levels)?;
    let behind = past(rest, Symbol::CloseSquare).ok_or(ReadError::NotTheForm)?;
    Ok((Term::List(found, Some(Boxed::new(alloc, others)?)), behind))
}

/// An equation of two paths, or a part without one.
#[cycle(descriptions)]
#[tactic(auto, using(crate::proofs::Terms::term_rules))]
pub(crate) fn part<'a>(
    alloc: Global,
    lexemes: &'a [Lexeme],
    levels: usize,
) -> Result<(Term, &'a [Lexeme]), ReadError>
    ensures { Gives (λ p. (term_data p.0, p.1.now)) result (part_at (simple_of levels) lexemes.now) }
{
    let Some((left, behind)) = left_path(alloc, lexemes)? else {
        return simple(alloc, lexemes, levels);
    };
    let (right, rest) = path(alloc, behind)?;
    Ok((Term::Meet(left, right), rest))
}

/// The further parts, each after a `,`.
#[cycle(descriptions)]
fn more_parts<'a>(
    alloc: Global,
    lexemes: &'a [Lexeme],
    levels: usize,
) -> Result<(Vec<Term>, &'a [Lexeme]), ReadError>
    ensures { Gives (λ p. (map term_data p.0.items, p.1.now)) result (more_at (length lexemes.now) Comma (part_at (simple_of levels)) lexemes.now) }
{
    let mut found = Vec::new(alloc);
    let mut rest = lexemes;
    for _read in 0..lexemes.len() {
        let Some(behind) = past(rest, Symbol::Comma) else {
            return Ok((found, rest));
        };
        let (item, after) = part(alloc, behind, levels)?;
        add(&mut found, item)?;
        rest = after;
    }
    Ok((found, rest))
}

/// One part or more, with `,` between them.
#[cycle(descriptions)]
fn parts<'a>(
    alloc: Global,
    lexemes: &'a [Lexeme],
    levels: usize,
) -> Result<(Items<Term>, &'a [Lexeme]), ReadError>
    ensures { Gives (λ p. (map term_data p.0, p.1.now)) result (parts_at (simple_of levels) lexemes.now) }
{
    let (first, rest) = part(alloc, lexemes, levels)?;
    let (others, rest) = more_parts(alloc, rest, levels)?;
    Ok((Items::from_vec(joined(alloc, first, others)?), rest))
}

/// One part, or the conjunction of several.
#[cycle(descriptions)]
fn conjunction<'a>(
    alloc: Global,
    lexemes: &'a [Lexeme],
    levels: usize,
) -> Result<(Term, &'a [Lexeme]), ReadError>
    ensures { Gives (λ p. (term_data p.0, p.1.now)) result (conjunction_at (simple_of levels) lexemes.now) }
{
    let (first, rest) = part(alloc, lexemes, levels)?;
    let (others, rest) = more_parts(alloc, rest, levels)?;
    Ok((all_of(alloc, first, others)?, rest))
}

/// The further conjunctions, each after a `;`.
#[cycle(descriptions)]
fn more_disjuncts<'a>(
    alloc: Global,
    lexemes: &'a [Lexeme],
    levels: usize,
) -> Result<(Vec<Term>, &'a [Lexeme]), ReadError>
    ensures { Gives (λ p. (map term_data p.0.items, p.1.now)) result (more_at (length lexemes.now) Semicolon (conjunction_at (simple_of levels)) lexemes.now) }
{
    let mut found = Vec::new(alloc);
    let mut rest = lexemes;
    for _read in 0..lexemes.len() {
        let Some(behind) = past(rest, Symbol::Semicolon) else {
            return Ok((found, rest));
        };
        let (item, after) = conjunction(alloc, behind, levels)?;
        add(&mut found, item)?;
        rest = after;
    }
    Ok((found, rest))
}

/// One conjunction, or the disjunction of several.
#[cycle(descriptions)]
pub(crate) fn disjunction<'a>(
    alloc: Global,
    lexemes: &'a [Lexeme],
    levels: usize,
) -> Result<(Term, &'a [Lexeme]), ReadError>
    ensures { Gives (λ p. (term_data p.0, p.1.now)) result (disjunction_at (simple_of levels) lexemes.now) }
{
    let (first, rest) = conjunction(alloc, lexemes, levels)?;
    let (others, rest) = more_disjuncts(alloc, rest, levels)?;
    Ok((any_of(alloc, first, others)?, rest))
}
