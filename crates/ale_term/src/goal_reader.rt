//! The reading of goals. At most so many levels nest in what is read.
ghost use Rattle.std.specs.Prelude.{◌≡◌, ℕ, false, None, Some, suc, is_some, map, option_map, option_copied, length};
ghost use Rattle.ale_term.specs.declared.symbol.Symbol.TheVariants.{Comma, Equals};
ghost use Rattle.ale_term.specs.Results.{Gives};
ghost use Rattle.ale_term.specs.Terms.{term_data};
ghost use Rattle.ale_term.specs.Goals.{goal_data, once, if_else};
ghost use Rattle.ale_term.specs.Reading.{past, ended_by, more_at, simple_of, true_at, predicate_at, goals_at, then_at, alternative_at, alternatives_at, other_goal_at, goal_part_of, goal_of};

use crate::description_reader::{call_in, simple};
use crate::error::ReadError;
use crate::goal_term::GoalTerm;
use crate::lexeme::Lexeme;
use crate::list::add;
use crate::place::{behind_bracket, past, past_word};
use crate::several::{each_of, either_of};
use crate::symbol::Symbol;
use crate::term::Term;
use sqlite_items::Boxed;
use std::alloc::Global;

/// Whether the lexemes begin with `=`.
fn begins_with_equals(lexemes: &[Lexeme]) -> bool
    ensures { result ≡ is_some (past Equals lexemes.now) }
{
    past(lexemes, Symbol::Equals).is_some()
}

/// Whether a description before `=` may stand at the start. What begins with a bracket has the `=` after it; to look
/// for that first keeps the time linear where groups of goals nest.
fn may_be_side(lexemes: &[Lexeme]) -> bool
    ensures { result ≡ false → (n : ℕ) → ended_by Equals (simple_of n lexemes.now) ≡ None }
{
    match past(lexemes, Symbol::OpenRound) {
        None => true,
        Some(inner) => begins_with_equals(behind_bracket(inner)),
    }
}

/// A description before `=`, and what stands after that.
fn left_side(
    alloc: Global,
    lexemes: &[Lexeme],
    levels: usize,
) -> Result<Option<(Term, &[Lexeme])>, ReadError>
    ensures { Gives (option_map (λ p. (term_data p.0, p.1.now))) result (Some (ended_by Equals (simple_of levels lexemes.now))) }
{
    if !may_be_side(lexemes) {
        return Ok(None);
    }
    match simple(alloc, lexemes, levels) {
        Err(ReadError::NoMemory) => Err(ReadError::NoMemory),
        Err(ReadError::NotTheForm) => Ok(None),
        Ok((left, rest)) => match past(rest, Symbol::Equals) {
            None => Ok(None),
            Some(behind) => Ok(Some((left, behind))),
        },
    }
}

/// The lexemes after the goal `true`, which has no arguments.
#[tactic(auto, using(crate::proofs::Words::word_rules))]
fn past_true(lexemes: &[Lexeme]) -> Option<&[Lexeme]>
    ensures { option_copied result ≡ true_at lexemes.now }
{
    let behind = past_word(lexemes, "true")?;
    match past(behind, Symbol::OpenRound) {
        None => Some(behind),
        Some(_) => None,
    }
}

/// The goal `true`, or a predicate with its arguments.
#[tactic(auto, using(crate::proofs::Terms::goal_rules))]
fn predicate(
    alloc: Global,
    lexemes: &[Lexeme],
    levels: usize,
) -> Result<(GoalTerm, &[Lexeme]), ReadError>
    ensures { Gives (λ p. (goal_data p.0, p.1.now)) result (predicate_at (simple_of levels) lexemes.now) }
{
    if let Some(behind) = past_true(lexemes) {
        return Ok((GoalTerm::Yes, behind));
    }
    let ((name, arguments), rest) = call_in(alloc, lexemes, levels)?;
    Ok((GoalTerm::Call(name, arguments), rest))
}

/// Alternatives with `;` between them.
#[cycle(goals)]
pub(crate) fn goal_in<'a>(
    alloc: Global,
    lexemes: &'a [Lexeme],
    levels: usize,
) -> Result<(GoalTerm, &'a [Lexeme]), ReadError>
    ensures { Gives (λ p. (goal_data p.0, p.1.now)) result (goal_of levels lexemes.now) }
{
    if levels == 0 {
        return Err(ReadError::NotTheForm);
    }
    let (found, rest) = alternatives(alloc, lexemes, levels - 1)?;
    Ok((either_of(found), rest))
}

/// A goal without `,`, `->` and `;` outside of brackets.
#[cycle(goals)]
pub(crate) fn goal_part<'a>(
    alloc: Global,
    lexemes: &'a [Lexeme],
    levels: usize,
) -> Result<(GoalTerm, &'a [Lexeme]), ReadError>
    ensures { Gives (λ p. (goal_data p.0, p.1.now)) result (goal_part_of levels lexemes.now) }
{
    if levels == 0 {
        return Err(ReadError::NotTheForm);
    }
    part_within(alloc, lexemes, levels - 1)
}

/// A goal without `,`, `->` and `;` outside of brackets, in which so many levels nest deeper.
#[cycle(goals)]
#[tactic(auto, using(crate::proofs::Terms::goal_rules))]
fn part_within<'a>(
    alloc: Global,
    lexemes: &'a [Lexeme],
    levels: usize,
) -> Result<(GoalTerm, &'a [Lexeme]), ReadError>
    ensures { Gives (λ p. (goal_data p.0, p.1.now)) result (goal_part_of (suc levels) lexemes.now) }
{
    let Some((left, behind)) = left_side(alloc, lexemes, levels)? else {
        return other_goal(alloc, lexemes, levels);
    };
    let (right, rest) = simple(alloc, behind, levels)?;
    Ok((GoalTerm::Equal(left, right), rest))
}

/// Such a goal that is no equation.
#[cycle(goals)]
#[tactic(auto, using(crate::proofs::Terms::goal_rules))]
fn other_goal<'a>(
    alloc: Global,
    lexemes: &'a [Lexeme],
    levels: usize,
) -> Result<(GoalTerm, &'a [Lexeme]), ReadError>
    ensures { Gives (λ p. (goal_data p.0, p.1.now)) result (other_goal_at (simple_of levels) (goal_part_of levels) (goal_of levels) lexemes.now) }
{
    if let Some(behind) = past(lexemes, Symbol::Exclamation) {
        return Ok((GoalTerm::Cut, behind));
    }
    if let Some(behind) = past(lexemes, Symbol::NotProved) {
        let (goal, rest) = goal_part(alloc, behind, levels)?;
        return Ok((GoalTerm::Not(Boxed::new(alloc, goal)?), rest));
    }
    let Some(inner) = past(lexemes, Symbol::OpenRound) else {
        return predicate(alloc, lexemes, levels);
    };
    let (goal, rest) = goal_in(alloc, inner, levels)?;
    let behind = past(rest, Symbol::CloseRound).ok_or(ReadError::NotTheForm)?;
    Ok((goal, behind))
}

/// The further goals of a conjunction, each after a `,`.
#[cycle(goals)]
fn more_goals<'a>(
    alloc: Global,
    lexemes: &'a [Lexeme],
    levels: usize,
) -> Result<(Vec<GoalTerm>, &'a [Lexeme]), ReadError>
    ensures { Gives (λ p. (map goal_data p.0.items, p.1.now)) result (more_at (length lexemes.now) Comma (goal_part_of (suc levels)) lexemes.now) }
{
    let mut found = Vec::new(alloc);
    let mut rest = lexemes;
    for _read in 0..lexemes.len() {
        let Some(behind) = past(rest, Symbol::Comma) else {
            return Ok((found, rest));
        };
        let (item, after) = part_within(alloc, behind, levels)?;
        add(&mut found, item)?;
        rest = after;
    }
    Ok((found, rest))
}

/// One goal, or the conjunction of several.
#[cycle(goals)]
fn goals<'a>(
    alloc: Global,
    lexemes: &'a [Lexeme],
    levels: usize,
) -> Result<(GoalTerm, &'a [Lexeme]), ReadError>
    ensures { Gives (λ p. (goal_data p.0, p.1.now)) result (goals_at (goal_part_of (suc levels)) lexemes.now) }
{
    let (first, rest) = part_within(alloc, lexemes, levels)?;
    let (others, rest) = more_goals(alloc, rest, levels)?;
    Ok((each_of(alloc, first, others)?, rest))
}

/// The second goal where the first is proved.
#[tactic(auto, using(crate::proofs::Terms::goal_rules))]
fn once(alloc: Global, condition: GoalTerm, goal: GoalTerm) -> Result<GoalTerm, ReadError>
    ensures { Gives goal_data result (Some (once (goal_data condition) (goal_data goal))) }
{
    let condition = Boxed::new(alloc, condition)?;
    Ok(GoalTerm::Once(condition, Boxed::new(alloc, goal)?))
}

/// The second goal where the first is proved, else the third.
#[tactic(auto, using(crate::proofs::Terms::goal_rules))]
fn if_else(
    alloc: Global,
    condition: GoalTerm,
    goal: GoalTerm,
    other: GoalTerm,
) -> Result<GoalTerm, ReadError>
    ensures { Gives goal_data result (Some (if_else (goal_data condition) (goal_data goal) (goal_data other))) }
{
    let condition = Boxed::new(alloc, condition)?;
    let goal = Boxed::new(alloc, goal)?;
    Ok(GoalTerm::IfElse(condition, goal, Boxed::new(alloc, other)?))
}

/// What holds where the condition does, which stands with `->` before the lexemes; all after a `;` is the else.
#[cycle(goals)]
fn conditional<'a>(
    alloc: Global,
    condition: GoalTerm,
    lexemes: &'a [Lexeme],
    levels: usize,
) -> Result<(GoalTerm, &'a [Lexeme]), ReadError>
    ensures { Gives (λ p. (goal_data p.0, p.1.now)) result (then_at (goal_part_of (suc levels)) (goal_of levels) (goal_data condition) lexemes.now) }
{
    let (goal, rest) = goals(alloc, lexemes, levels)?;
    let Some(behind) = past(rest, Symbol::Semicolon) else {
        return Ok((once(alloc, condition, goal)?, rest));
    };
    let (other, rest) = goal_in(alloc, behind, levels)?;
    Ok((if_else(alloc, condition, goal, other)?, rest))
}

/// One alternative, and whether a `;` before others stood after it.
#[cycle(goals)]
fn alternative<'a>(
    alloc: Global,
    lexemes: &'a [Lexeme],
    levels: usize,
) -> Result<((GoalTerm, bool), &'a [Lexeme]), ReadError>
    ensures { Gives (λ p. ((goal_data p.0.0, p.0.1), p.1.now)) result (alternative_at (goal_part_of (suc levels)) (goal_of levels) lexemes.now) }
{
    let (goal, rest) = goals(alloc, lexemes, levels)?;
    if let Some(behind) = past(rest, Symbol::Then) {
        let (whole, rest) = conditional(alloc, goal, behind, levels)?;
        return Ok(((whole, false), rest));
    }
    match past(rest, Symbol::Semicolon) {
        None => Ok(((goal, false), rest)),
        Some(behind) => Ok(((goal, true), behind)),
    }
}

/// The alternatives in order.
#[cycle(goals)]
fn alternatives<'a>(
    alloc: Global,
    lexemes: &'a [Lexeme],
    levels: usize,
) -> Result<(Vec<GoalTerm>, &'a [Lexeme]), ReadError>
    ensures { Gives (λ p. (map goal_data p.0.items, p.1.now)) result (alternatives_at (length lexemes.now) (goal_part_of (suc levels)) (goal_of levels) lexemes.now) }
{
    let mut found = Vec::new(alloc);
    let mut rest = lexemes;
    for _read in 0..lexemes.len() {
        let ((goal, more), after) = alternative(alloc, rest, levels)?;
        add(&mut found, goal)?;
        if !more {
            return Ok((found, after));
        }
        rest = after;
    }
    Err(ReadError::NotTheForm)
}
