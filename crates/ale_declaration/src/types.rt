//! Declarations of types.
ghost use Rattle.std.specs.Prelude.{◌≡◌, length};
ghost use Rattle.ale_term.specs.declared.symbol.Symbol.TheVariants.{Comma};
ghost use Rattle.ale_term.specs.Results.{Gives};
ghost use Rattle.ale_term.specs.Reading.{more_at};
ghost use Rattle.ale_declaration.specs.Declarations.{declaration_data};
ghost use Rattle.ale_declaration.specs.Reading.{restriction_at, restrictions_of, introduced_of, kind_of, types_of, extensional_of};

use crate::declaration::Declaration;
use crate::list::some_atoms;
use ale_declared::SigDecl;
use ale_form::ended;
use ale_term::{Lexeme, ReadError, Symbol, add, atom_at, atoms, joined, past, past_word};
use ale_text::{Row, Text};
use std::alloc::Global;

/// A feature and the restriction on its value.
fn restriction(alloc: Global, lexemes: &[Lexeme]) -> Result<((Text, Text), &[Lexeme]), ReadError>
    ensures { Gives (λ p. (p.0, p.1.now)) result (restriction_at lexemes.now) }
{
    let (feature, behind) = atom_at(lexemes).ok_or(ReadError::NotTheForm)?;
    let inner = past(behind, Symbol::Colon).ok_or(ReadError::NotTheForm)?;
    let (value, rest) = atom_at(inner).ok_or(ReadError::NotTheForm)?;
    Ok(((feature.copy(alloc)?, value.copy(alloc)?), rest))
}

/// The further restrictions, each after a `,`.
fn more_restrictions<'a>(
    alloc: Global,
    lexemes: &'a [Lexeme],
) -> Result<(Vec<(Text, Text)>, &'a [Lexeme]), ReadError>
    ensures { Gives (λ p. (p.0.items, p.1.now)) result (more_at (length lexemes.now) Comma restriction_at lexemes.now) }
{
    let mut found = Vec::new(alloc);
    let mut rest = lexemes;
    for _read in 0..lexemes.len() {
        let Some(behind) = past(rest, Symbol::Comma) else {
            return Ok((found, rest));
        };
        let (item, after) = restriction(alloc, behind)?;
        add(&mut found, item)?;
        rest = after;
    }
    Ok((found, rest))
}

/// Features with restrictions in square brackets, which may be none, and nothing after them.
fn restrictions(alloc: Global, lexemes: &[Lexeme]) -> Result<Row<(Text, Text)>, ReadError>
    ensures { Gives (λ r. r) result (restrictions_of lexemes.now) }
{
    let inner = past(lexemes, Symbol::OpenSquare).ok_or(ReadError::NotTheForm)?;
    if let Some(behind) = past(inner, Symbol::CloseSquare) {
        ended(behind)?;
        return Ok(Row::of(Vec::new(alloc)));
    }
    let (first, rest) = restriction(alloc, inner)?;
    let (others, rest) = more_restrictions(alloc, rest)?;
    ended(past(rest, Symbol::CloseSquare).ok_or(ReadError::NotTheForm)?)?;
    Ok(Row::of(joined(alloc, first, others)?))
}

/// The features that a type introduces after its subtypes, if any.
#[tactic(auto, using(crate::proofs::Words::word_rules))]
fn introduced(alloc: Global, lexemes: &[Lexeme]) -> Result<Row<(Text, Text)>, ReadError>
    ensures { Gives (λ r. r) result (introduced_of lexemes.now) }
{
    if let Some(behind) = past_word(lexemes, "intro") {
        return restrictions(alloc, behind);
    }
    ended(lexemes)?;
    Ok(Row::of(Vec::new(alloc)))
}

/// What follows the name of a type.
#[tactic(auto, using(crate::proofs::Words::word_rules))]
fn kind(alloc: Global, name: &Text, lexemes: &[Lexeme]) -> Result<Declaration, ReadError>
    ensures { Gives declaration_data result (kind_of name.now lexemes.now) }
{
    let name = name.copy(alloc)?;
    if let Some(behind) = past_word(lexemes, "sub") {
        let (subs, rest) = atoms(alloc, behind)?;
        let intros = introduced(alloc, rest)?;
        return Ok(Declaration::Sig(SigDecl::Kind { name, subs, intros }));
    }
    let behind = past_word(lexemes, "intro").ok_or(ReadError::NotTheForm)?;
    let intros = restrictions(alloc, behind)?;
    let subs = Row::of(Vec::new(alloc));
    Ok(Declaration::Sig(SigDecl::Kind { name, subs, intros }))
}

/// A type with its subtypes and its features.
pub(crate) fn read_types(alloc: Global, lexemes: &[Lexeme]) -> Result<Declaration, ReadError>
    ensures { Gives declaration_data result (types_of lexemes.now) }
{
    let (name, behind) = atom_at(lexemes).ok_or(ReadError::NotTheForm)?;
    kind(alloc, name, behind)
}

/// Extensional types.
#[tactic(auto, using(crate::proofs::Words::word_rules))]
pub(crate) fn read_extensional(alloc: Global, lexemes: &[Lexeme]) -> Result<Declaration, ReadError>
    ensures { Gives declaration_data result (extensional_of lexemes.now) }
{
    let behind = past_word(lexemes, "ext").ok_or(ReadError::NotTheForm)?;
    let inner = past(behind, Symbol::OpenRound).ok_or(ReadError::NotTheForm)?;
    let (names, rest) = some_atoms(alloc, inner)?;
    ended(past(rest, Symbol::CloseRound).ok_or(ReadError::NotTheForm)?)?;
    Ok(Declaration::Sig(SigDecl::Ext { names }))
}
