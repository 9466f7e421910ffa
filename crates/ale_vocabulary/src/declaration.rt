//! The first mention of a declaration that is not known.
ghost use Rattle.std.specs.Prelude.{◌≡◌, ◌++◌, ◌∷◌, IfOk, IfSome, IfNone, map, option_map};
ghost use Rattle.ale_term.specs.Terms.{term_data, terms_of};
ghost use Rattle.ale_term.specs.Goals.{goal_data};
ghost use Rattle.ale_vocabulary.specs.First.{IsFirst, AllRight, first_of};
ghost use Rattle.ale_vocabulary.specs.Knowing.{IsUnknown, unknown_in};
ghost use Rattle.ale_declaration.specs.Declarations.{declaration_data, element_data};
ghost use Rattle.ale_vocabulary.specs.Mentions.{type, mentions, mentions_of_all, mentions_of_goal, mentions_of_some, mentions_of_element, mentions_of_elements, mentions_of_declaration};

use crate::description::{first_in, first_in_each};
use crate::error::NameError;
use crate::goal::{first_in_goal, first_in_some, first_in_two};
use crate::knowing::{unknown_list, unknown_predicate, unknown_type};
use crate::vocabulary::Vocabulary;
use ale_declaration::{Declaration, Part};
use ale_signature::Signature;
use ale_term::{GoalTerm, Term};
use ale_text::Text;
use std::alloc::{AllocError, Global};

/// The fault of the first mention of an element of a rule that is not known.
#[tactic(auto, using(crate::proofs::Firsts::first_rules))]
fn first_in_part(
    alloc: Global,
    sig: &Signature,
    vocabulary: &Vocabulary,
    part: &Part,
) -> Result<Option<NameError>, AllocError>
    ensures { IfOk result (λ o. o ≡ first_of (unknown_in sig.now vocabulary.now) (mentions_of_element (element_data part.now))) }
{
    match part {
        Part::Cat(term) | Part::Head(term) => first_in(alloc, sig, vocabulary, term),
        Part::Cats(list) => {
            if let Some(fault) = unknown_list(sig) {
                return Ok(Some(fault));
            }
            first_in(alloc, sig, vocabulary, list)
        }
        Part::Goal(goal) => first_in_goal(alloc, sig, vocabulary, goal),
    }
}

/// The fault of the first mention of the elements of a rule that is not known.
fn first_in_parts(
    alloc: Global,
    sig: &Signature,
    vocabulary: &Vocabulary,
    parts: &[Part],
) -> Result<Option<NameError>, AllocError>
    ensures { IfOk result (λ o. o ≡ first_of (unknown_in sig.now vocabulary.now) (mentions_of_elements (map element_data parts.now))) }
{
    for part in parts {
        if let Some(fault) = first_in_part(alloc, sig, vocabulary, part)? {
            return Ok(Some(fault));
        }
    }
    Ok(None)
}

/// The fault of the first mention of a constraint that is not known.
#[tactic(auto, using(crate::proofs::Firsts::first_rules))]
fn first_in_constraint(
    alloc: Global,
    sig: &Signature,
    vocabulary: &Vocabulary,
    name: &Text,
    term: &Term,
    goal: &Option<GoalTerm>,
) -> Result<Option<NameError>, AllocError>
    ensures { IfOk result (λ o. o ≡ first_of (unknown_in sig.now vocabulary.now) (type name.now ∷ mentions (term_data term.now) ++ mentions_of_some (option_map goal_data goal.now))) }
{
    if let Some(fault) = unknown_type(alloc, sig, name)? {
        return Ok(Some(fault));
    }
    if let Some(inner) = first_in(alloc, sig, vocabulary, term)? {
        return Ok(Some(inner));
    }
    first_in_some(alloc, sig, vocabulary, goal)
}

/// The fault of the first mention of a clause that is not known.
#[tactic(auto, using(crate::proofs::Firsts::first_rules))]
fn first_in_clause(
    alloc: Global,
    sig: &Signature,
    vocabulary: &Vocabulary,
    arguments: &[Term],
    goal: &GoalTerm,
) -> Result<Option<NameError>, AllocError>
    ensures { IfOk result (λ o. o ≡ first_of (unknown_in sig.now vocabulary.now) (mentions_of_all (terms_of (map term_data arguments.now)) ++ mentions_of_goal (goal_data goal.now))) }
{
    if let Some(fault) = first_in_each(alloc, sig, vocabulary, arguments)? {
        return Ok(Some(fault));
    }
    first_in_goal(alloc, sig, vocabulary, goal)
}

/// The fault of the first mention of a lexical rule that is not known.
#[tactic(auto, using(crate::proofs::Firsts::first_rules))]
fn first_in_lex_rule(
    alloc: Global,
    sig: &Signature,
    vocabulary: &Vocabulary,
    from: &Term,
    to: &Term,
    goal: &Option<GoalTerm>,
) -> Result<Option<NameError>, AllocError>
    ensures { IfOk result (λ o. o ≡ first_of (unknown_in sig.now vocabulary.now) (mentions (term_data from.now) ++ mentions (term_data to.now) ++ mentions_of_some (option_map goal_data goal.now))) }
{
    if let Some(fault) = first_in_two(alloc, sig, vocabulary, from, to)? {
        return Ok(Some(fault));
    }
    first_in_some(alloc, sig, vocabulary, goal)
}

/// The fault of the first mention of a rule that is not known.
#[tactic(auto, using(crate::proofs::Firsts::first_rules))]
fn first_in_rule(
    alloc: Global,
    sig: &Signature,
    vocabulary: &Vocabulary,
    mother: &Term,
    parts: &[Part],
) -> Result<Option<NameError>, AllocError>
    ensures { IfOk result (λ o. o ≡ first_of (unknown_in sig.now vocabulary.now) (mentions (term_data mother.now) ++ mentions_of_elements (map element_data parts.now))) }
{
    if let Some(fault) = first_in(alloc, sig, vocabulary, mother)? {
        return Ok(Some(fault));
    }
    first_in_parts(alloc, sig, vocabulary, parts)
}

/// The fault of the first mention that is not known.
#[tactic(auto, using(crate::proofs::Firsts::first_rules))]
fn first_in_declaration(
    alloc: Global,
    sig: &Signature,
    vocabulary: &Vocabulary,
    declaration: &Declaration,
) -> Result<Option<NameError>, AllocError>
    ensures { IfOk result (λ o. o ≡ first_of (unknown_in sig.now vocabulary.now) (mentions_of_declaration (declaration_data declaration.now))) }
{
    match declaration {
        Declaration::Cons(name, term, goal) => {
            first_in_constraint(alloc, sig, vocabulary, name, term, goal)
        }
        Declaration::Macro(_, _, term) | Declaration::Word(_, term) | Declaration::Empty(term) => {
            first_in(alloc, sig, vocabulary, term)
        }
        Declaration::Clause(_, arguments, goal) => {
            first_in_clause(alloc, sig, vocabulary, arguments.as_slice(), goal)
        }
        Declaration::LexRule(_, from, to, goal, _) => {
            first_in_lex_rule(alloc, sig, vocabulary, from, to, goal)
        }
        Declaration::Rule(_, mother, parts) => {
            first_in_rule(alloc, sig, vocabulary, mother, parts.as_slice())
        }
        Declaration::Semantics(name) => unknown_predicate(alloc, vocabulary, name, 2),
        Declaration::Sig(_)
        | Declaration::LexDepth(_)
        | Declaration::ChainLength(_)
        | Declaration::PassedOver(_) => Ok(None),
    }
}

/// The fault of the first mention of a declaration, from left to right, that is not known.
#[tactic(auto, using(crate::proofs::Found::answer_first, crate::proofs::Found::answer_none))]
pub fn first_unknown_in_declaration(
    alloc: Global,
    sig: &Signature,
    vocabulary: &Vocabulary,
    declaration: &Declaration,
) -> Result<Option<NameError>, AllocError>
    ensures value { IfOk result (λ o. o ≡ first_of (unknown_in sig.now vocabulary.now) (mentions_of_declaration (declaration_data declaration.now))) }
    ensures first { IfOk result (λ o. IfSome o (IsFirst (IsUnknown sig.now vocabulary.now) (mentions_of_declaration (declaration_data declaration.now)))) }
    ensures none { IfOk result (λ o. IfNone o (AllRight (IsUnknown sig.now vocabulary.now) (mentions_of_declaration (declaration_data declaration.now)))) }
{
    first_in_declaration(alloc, sig, vocabulary, declaration)
}
