//! Lexical rules and phrase structure rules.
ghost use Rattle.std.specs.Prelude.{◌≡◌, length, map, option_map};
ghost use Rattle.ale_term.specs.declared.symbol.Symbol.TheVariants.{Comma};
ghost use Rattle.ale_term.specs.Results.{Gives};
ghost use Rattle.ale_term.specs.Goals.{goal_data};
ghost use Rattle.ale_term.specs.Reading.{more_at, separated_at};
ghost use Rattle.ale_declaration.specs.Declarations.{element_data, declaration_data};
ghost use Rattle.ale_declaration.specs.Reading.{condition_at, line_at, lines_of, lexical_of, lexical_rule_of, daughter_at, daughters_at, head_at, goal_part_at, rule_part_at, rule_parts_of, rule_of};

use crate::declaration::{Declaration, MorphLine, Part};
use crate::lines::line;
use ale_form::ended;
use ale_term::{
    GoalTerm, Lexeme, ReadError, Symbol, add, atom_at, description, element, goal, goal_element,
    joined, past, past_word,
};
use ale_text::{Row, Text};
use sqlite_items::Items;
use std::alloc::Global;

/// The condition of a lexical rule, if any.
#[tactic(auto, using(crate::proofs::Words::word_rules))]
fn condition(alloc: Global, lexemes: &[Lexeme]) -> Result<(Option<GoalTerm>, &[Lexeme]), ReadError>
    ensures { Gives (λ p. (option_map goal_data p.0, p.1.now)) result (condition_at lexemes.now) }
{
    let Some(behind) = past_word(lexemes, "if") else {
        return Ok((None, lexemes));
    };
    let (found, rest) = goal(alloc, behind)?;
    Ok((Some(found), rest))
}

/// The further lines, each after a `,`.
fn more_lines<'a>(
    alloc: Global,
    lexemes: &'a [Lexeme],
) -> Result<(Vec<MorphLine>, &'a [Lexeme]), ReadError>
    ensures { Gives (λ p. (p.0.items, p.1.now)) result (more_at (length lexemes.now) Comma line_at lexemes.now) }
{
    let mut found = Vec::new(alloc);
    let mut rest = lexemes;
    for _read in 0..lexemes.len() {
        let Some(behind) = past(rest, Symbol::Comma) else {
            return Ok((found, rest));
        };
        let (item, after) = line(alloc, behind)?;
        add(&mut found, item)?;
        rest = after;
    }
    Ok((found, rest))
}

/// The lines of a lexical rule, and nothing after them.
#[tactic(auto, using(crate::proofs::Words::word_rules))]
fn lines(alloc: Global, lexemes: &[Lexeme]) -> Result<Row<MorphLine>, ReadError>
    ensures { Gives (λ r. r) result (lines_of lexemes.now) }
{
    let behind = past_word(lexemes, "morphs").ok_or(ReadError::NotTheForm)?;
    let (first, rest) = line(alloc, behind)?;
    let (others, rest) = more_lines(alloc, rest)?;
    ended(rest)?;
    Ok(Row::of(joined(alloc, first, others)?))
}

/// What stands after `lex_rule`.
fn lexical(alloc: Global, name: &Text, lexemes: &[Lexeme]) -> Result<Declaration, ReadError>
    ensures { Gives declaration_data result (lexical_of name.now lexemes.now) }
{
    let name = name.copy(alloc)?;
    let (input, rest) = description(alloc, lexemes)?;
    let behind = past(rest, Symbol::LexRuleArrow).ok_or(ReadError::NotTheForm)?;
    let (output, rest) = description(alloc, behind)?;
    let (goal, rest) = condition(alloc, rest)?;
    let lines = lines(alloc, rest)?;
    Ok(Declaration::LexRule(name, input, output, goal, lines))
}

/// A lexical rule.
#[tactic(auto, using(crate::proofs::Words::word_rules))]
pub(crate) fn read_lexical_rule(alloc: Global, lexemes: &[Lexeme]) -> Result<Declaration, ReadError>
    ensures { Gives declaration_data result (lexical_rule_of lexemes.now) }
{
    let (name, behind) = atom_at(lexemes).ok_or(ReadError::NotTheForm)?;
    let inner = past_word(behind, "lex_rule").ok_or(ReadError::NotTheForm)?;
    lexical(alloc, name, inner)
}

/// A daughter, after its word.
fn daughter(alloc: Global, lexemes: &[Lexeme]) -> Result<(Part, &[Lexeme]), ReadError>
    ensures { Gives (λ p. (element_data p.0, p.1.now)) result (daughter_at lexemes.now) }
{
    let behind = past(lexemes, Symbol::Greater).ok_or(ReadError::NotTheForm)?;
    let (described, rest) = element(alloc, behind)?;
    Ok((Part::Cat(described), rest))
}

/// A list of daughters, after its word.
fn daughters(alloc: Global, lexemes: &[Lexeme]) -> Result<(Part, &[Lexeme]), ReadError>
    ensures { Gives (λ p. (element_data p.0, p.1.now)) result (daughters_at lexemes.now) }
{
    let behind = past(lexemes, Symbol::Greater).ok_or(ReadError::NotTheForm)?;
    let (described, rest) = element(alloc, behind)?;
    Ok((Part::Cats(described), rest))
}

/// The semantic head, after its word.
fn head(alloc: Global, lexemes: &[Lexeme]) -> Result<(Part, &[Lexeme]), ReadError>
    ensures { Gives (λ p. (element_data p.0, p.1.now)) result (head_at lexemes.now) }
{
    let behind = past(lexemes, Symbol::Greater).ok_or(ReadError::NotTheForm)?;
    let (described, rest) = element(alloc, behind)?;
    Ok((Part::Head(described), rest))
}

/// A goal, after its word.
fn goal_part(alloc: Global, lexemes: &[Lexeme]) -> Result<(Part, &[Lexeme]), ReadError>
    ensures { Gives (λ p. (element_data p.0, p.1.now)) result (goal_part_at lexemes.now) }
{
    let behind = past(lexemes, Symbol::Greater).ok_or(ReadError::NotTheForm)?;
    let (found, rest) = goal_element(alloc, behind)?;
    Ok((Part::Goal(found), rest))
}

/// An element of a rule.
#[tactic(auto, using(crate::proofs::Words::word_rules))]
fn rule_part(alloc: Global, lexemes: &[Lexeme]) -> Result<(Part, &[Lexeme]), ReadError>
    ensures { Gives (λ p. (element_data p.0, p.1.now)) result (rule_part_at lexemes.now) }
{
    if let Some(behind) = past_word(lexemes, "cat") {
        return daughter(alloc, behind);
    }
    if let Some(behind) = past_word(lexemes, "cats") {
        return daughters(alloc, behind);
    }
    if let Some(behind) = past_word(lexemes, "goal") {
        return goal_part(alloc, behind);
    }
    head(
        alloc,
        past_word(lexemes, "sem_head").ok_or(ReadError::NotTheForm)?,
    )
}

/// The further elements, each after a `,`.
fn more_rule_parts<'a>(
    alloc: Global,
    lexemes: &'a [Lexeme],
) -> Result<(Vec<Part>, &'a [Lexeme]), ReadError>
    ensures { Gives (λ p. (map element_data p.0.items, p.1.now)) result (more_at (length lexemes.now) Comma rule_part_at lexemes.now) }
{
    let mut found = Vec::new(alloc);
    let mut rest = lexemes;
    for _read in 0..lexemes.len() {
        let Some(behind) = past(rest, Symbol::Comma) else {
            return Ok((found, rest));
        };
        let (item, after) = rule_part(alloc, behind)?;
        add(&mut found, item)?;
        rest = after;
    }
    Ok((found, rest))
}

/// One element or more, with `,` between them.
fn some_rule_parts(alloc: Global, lexemes: &[Lexeme]) -> Result<(Vec<Part>, &[Lexeme]), ReadError>
    ensures { Gives (λ p. (map element_data p.0.items, p.1.now)) result (separated_at Comma rule_part_at lexemes.now) }
{
    let (first, rest) = rule_part(alloc, lexemes)?;
    let (others, rest) = more_rule_parts(alloc, rest)?;
    Ok((joined(alloc, first, others)?, rest))
}

/// The elements of a rule, and nothing after them.
fn rule_parts(alloc: Global, lexemes: &[Lexeme]) -> Result<Items<Part>, ReadError>
    ensures { Gives (λ ps. map element_data ps) result (rule_parts_of lexemes.now) }
{
    let (found, rest) = some_rule_parts(alloc, lexemes)?;
    ended(rest)?;
    Ok(Items::from_vec(found))
}

/// A phrase structure rule.
#[tactic(auto, using(crate::proofs::Words::word_rules))]
pub(crate) fn read_rule(alloc: Global, lexemes: &[Lexeme]) -> Result<Declaration, ReadError>
    ensures { Gives declaration_data result (rule_of lexemes.now) }
{
    let (name, behind) = atom_at(lexemes).ok_or(ReadError::NotTheForm)?;
    let inner = past_word(behind, "rule").ok_or(ReadError::NotTheForm)?;
    let (mother, rest) = description(alloc, inner)?;
    let behind = past(rest, Symbol::RuleArrow).ok_or(ReadError::NotTheForm)?;
    let parts = rule_parts(alloc, behind)?;
    Ok(Declaration::Rule(name.copy(alloc)?, mother, parts))
}
