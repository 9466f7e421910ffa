//! Constraints, macros, definite clauses, words, empty categories, and the predicate that gives the semantics.
ghost use Rattle.std.specs.Prelude.{◌≡◌, length, option_map};
ghost use Rattle.ale_term.specs.declared.symbol.Symbol.TheVariants.{Comma};
ghost use Rattle.ale_term.specs.Results.{Gives};
ghost use Rattle.ale_term.specs.Goals.{goal_data};
ghost use Rattle.ale_term.specs.Reading.{more_at, separated_at, variable_at};
ghost use Rattle.ale_declaration.specs.Declarations.{declaration_data};
ghost use Rattle.ale_declaration.specs.Reading.{goal_behind, constraint_of, parameters_at, macro_of, clause_of, word_of, empty_of, semantics_of};

use crate::declaration::Declaration;
use crate::list::are_distinct;
use ale_form::{ended, whole_description, whole_goal};
use ale_term::{
    GoalTerm, Lexeme, ReadError, Symbol, add, atom_at, call, description, joined, past, past_word,
    variable_at,
};
use ale_text::{Row, Text};
use std::alloc::Global;

/// The goal of a constraint, if any.
#[tactic(auto, using(crate::proofs::Words::word_rules))]
fn goal_behind(alloc: Global, lexemes: &[Lexeme]) -> Result<Option<GoalTerm>, ReadError>
    ensures { Gives (option_map goal_data) result (goal_behind lexemes.now) }
{
    let Some(behind) = past_word(lexemes, "goal") else {
        ended(lexemes)?;
        return Ok(None);
    };
    Ok(Some(whole_goal(alloc, behind)?))
}

/// A constraint on a type.
#[tactic(auto, using(crate::proofs::Words::word_rules))]
pub(crate) fn read_constraint(alloc: Global, lexemes: &[Lexeme]) -> Result<Declaration, ReadError>
    ensures { Gives declaration_data result (constraint_of lexemes.now) }
{
    let (name, behind) = atom_at(lexemes).ok_or(ReadError::NotTheForm)?;
    let inner = past_word(behind, "cons").ok_or(ReadError::NotTheForm)?;
    let (described, rest) = description(alloc, inner)?;
    let goal = goal_behind(alloc, rest)?;
    Ok(Declaration::Cons(name.copy(alloc)?, described, goal))
}

/// A variable.
fn variable(alloc: Global, lexemes: &[Lexeme]) -> Result<(Text, &[Lexeme]), ReadError>
    ensures { Gives (λ p. (p.0, p.1.now)) result (variable_at lexemes.now) }
{
    let (name, behind) = variable_at(lexemes).ok_or(ReadError::NotTheForm)?;
    Ok((name.copy(alloc)?, behind))
}

/// The further variables, each after a `,`.
fn more_variables<'a>(
    alloc: Global,
    lexemes: &'a [Lexeme],
) -> Result<(Vec<Text>, &'a [Lexeme]), ReadError>
    ensures { Gives (λ p. (p.0.items, p.1.now)) result (more_at (length lexemes.now) Comma variable_at lexemes.now) }
{
    let mut found = Vec::new(alloc);
    let mut rest = lexemes;
    for _read in 0..lexemes.len() {
        let Some(behind) = past(rest, Symbol::Comma) else {
            return Ok((found, rest));
        };
        let (item, after) = variable(alloc, behind)?;
        add(&mut found, item)?;
        rest = after;
    }
    Ok((found, rest))
}

/// One variable or more, with `,` between them.
fn variables(alloc: Global, lexemes: &[Lexeme]) -> Result<(Vec<Text>, &[Lexeme]), ReadError>
    ensures { Gives (λ p. (p.0.items, p.1.now)) result (separated_at Comma variable_at lexemes.now) }
{
    let (first, rest) = variable(alloc, lexemes)?;
    let (others, rest) = more_variables(alloc, rest)?;
    Ok((joined(alloc, first, others)?, rest))
}

/// The parameters of a macro, if any.
fn parameters(alloc: Global, lexemes: &[Lexeme]) -> Result<(Row<Text>, &[Lexeme]), ReadError>
    ensures { Gives (λ p. (p.0, p.1.now)) result (parameters_at lexemes.now) }
{
    let Some(inner) = past(lexemes, Symbol::OpenRound) else {
        return Ok((Row::of(Vec::new(alloc)), lexemes));
    };
    let (names, rest) = variables(alloc, inner)?;
    let behind = past(rest, Symbol::CloseRound).ok_or(ReadError::NotTheForm)?;
    if !are_distinct(alloc, &names)? {
        return Err(ReadError::NotTheForm);
    }
    Ok((Row::of(names), behind))
}

/// A macro.
#[tactic(auto, using(crate::proofs::Words::word_rules))]
pub(crate) fn read_macro(alloc: Global, lexemes: &[Lexeme]) -> Result<Declaration, ReadError>
    ensures { Gives declaration_data result (macro_of lexemes.now) }
{
    let (name, behind) = atom_at(lexemes).ok_or(ReadError::NotTheForm)?;
    let (names, rest) = parameters(alloc, behind)?;
    let inner = past_word(rest, "macro").ok_or(ReadError::NotTheForm)?;
    let described = whole_description(alloc, inner)?;
    Ok(Declaration::Macro(name.copy(alloc)?, names, described))
}

/// A definite clause.
#[tactic(auto, using(crate::proofs::Words::word_rules))]
pub(crate) fn read_clause(alloc: Global, lexemes: &[Lexeme]) -> Result<Declaration, ReadError>
    ensures { Gives declaration_data result (clause_of lexemes.now) }
{
    let ((name, arguments), rest) = call(alloc, lexemes)?;
    let behind = past_word(rest, "if").ok_or(ReadError::NotTheForm)?;
    let goal = whole_goal(alloc, behind)?;
    Ok(Declaration::Clause(name, arguments, goal))
}

/// A word.
pub(crate) fn read_word(alloc: Global, lexemes: &[Lexeme]) -> Result<Declaration, ReadError>
    ensures { Gives declaration_data result (word_of lexemes.now) }
{
    let (name, behind) = atom_at(lexemes).ok_or(ReadError::NotTheForm)?;
    let inner = past(behind, Symbol::WordArrow).ok_or(ReadError::NotTheForm)?;
    let described = whole_description(alloc, inner)?;
    Ok(Declaration::Word(name.copy(alloc)?, described))
}

/// An empty category.
#[tactic(auto, using(crate::proofs::Words::word_rules))]
pub(crate) fn read_empty(alloc: Global, lexemes: &[Lexeme]) -> Result<Declaration, ReadError>
    ensures { Gives declaration_data result (empty_of lexemes.now) }
{
    let behind = past_word(lexemes, "empty").ok_or(ReadError::NotTheForm)?;
    Ok(Declaration::Empty(whole_description(alloc, behind)?))
}

/// The predicate that gives the semantics.
#[tactic(auto, using(crate::proofs::Words::word_rules))]
pub(crate) fn read_semantics(alloc: Global, lexemes: &[Lexeme]) -> Result<Declaration, ReadError>
    ensures { Gives declaration_data result (semantics_of lexemes.now) }
{
    let behind = past_word(lexemes, "semantics").ok_or(ReadError::NotTheForm)?;
    let (name, rest) = atom_at(behind).ok_or(ReadError::NotTheForm)?;
    ended(rest)?;
    Ok(Declaration::Semantics(name.copy(alloc)?))
}
