//! The first mention of a goal that is not known.
ghost use Rattle.std.specs.Prelude.{◌≡◌, ◌++◌, IfOk, IfSome, IfNone, map, option_map};
ghost use Rattle.ale_term.specs.Terms.{term_data, terms_of};
ghost use Rattle.ale_term.specs.Goals.{goal_data, goals_of};
ghost use Rattle.ale_vocabulary.specs.First.{IsFirst, AllRight, first_of};
ghost use Rattle.ale_vocabulary.specs.Knowing.{IsUnknown, unknown_in};
ghost use Rattle.ale_vocabulary.specs.Keys.{key};
ghost use Rattle.ale_vocabulary.specs.Mentions.{mentions, mentions_of_goal, mentions_of_goals, mentions_of_some};

use crate::description::{first_in, first_in_each};
use crate::error::NameError;
use crate::knowing::unknown_predicate;
use crate::vocabulary::Vocabulary;
use ale_signature::Signature;
use ale_term::{GoalTerm, Term};
use std::alloc::{AllocError, Global};

/// The fault of the first mention of two descriptions that is not known.
#[tactic(auto, using(crate::proofs::Firsts::first_rules))]
pub(crate) fn first_in_two(
    alloc: Global,
    sig: &Signature,
    vocabulary: &Vocabulary,
    left: &Term,
    right: &Term,
) -> Result<Option<NameError>, AllocError>
    ensures { IfOk result (λ o. o ≡ first_of (unknown_in sig.now vocabulary.now) (mentions (term_data left.now) ++ mentions (term_data right.now))) }
{
    if let Some(fault) = first_in(alloc, sig, vocabulary, left)? {
        return Ok(Some(fault));
    }
    first_in(alloc, sig, vocabulary, right)
}

/// The fault of the first mention of a goal that is not known.
#[cycle(goals)]
#[tactic(auto, using(ale_term::proofs::Terms::goal_rules, crate::proofs::Firsts::first_rules))]
pub(crate) fn first_in_goal(
    alloc: Global,
    sig: &Signature,
    vocabulary: &Vocabulary,
    goal: &GoalTerm,
) -> Result<Option<NameError>, AllocError>
    ensures { IfOk result (λ o. o ≡ first_of (unknown_in sig.now vocabulary.now) (mentions_of_goal (goal_data goal.now))) }
{
    match goal {
        GoalTerm::Yes | GoalTerm::Cut => Ok(None),
        GoalTerm::All(goals) | GoalTerm::Any(goals) => {
            first_in_goals(alloc, sig, vocabulary, goals.as_slice())
        }
        GoalTerm::Equal(left, right) => first_in_two(alloc, sig, vocabulary, left, right),
        GoalTerm::Call(name, arguments) => {
            if let Some(fault) = unknown_predicate(alloc, vocabulary, name, arguments.len())? {
                return Ok(Some(fault));
            }
            first_in_each(alloc, sig, vocabulary, arguments.as_slice())
        }
        GoalTerm::Not(inner) => first_in_goal(alloc, sig, vocabulary, inner.get()),
        GoalTerm::IfElse(condition, inner, other) => {
            if let Some(fault) = first_in_goal(alloc, sig, vocabulary, condition.get())? {
                return Ok(Some(fault));
            }
            if let Some(fault) = first_in_goal(alloc, sig, vocabulary, inner.get())? {
                return Ok(Some(fault));
            }
            first_in_goal(alloc, sig, vocabulary, other.get())
        }
        GoalTerm::Once(condition, inner) => {
            if let Some(fault) = first_in_goal(alloc, sig, vocabulary, condition.get())? {
                return Ok(Some(fault));
            }
            first_in_goal(alloc, sig, vocabulary, inner.get())
        }
    }
}

/// The fault of the first mention that is not known of several goals one after the other.
#[cycle(goals)]
#[tactic(auto, using(ale_term::proofs::Terms::goal_rules, crate::proofs::Firsts::first_rules))]
fn first_in_goals(
    alloc: Global,
    sig: &Signature,
    vocabulary: &Vocabulary,
    goals: &[GoalTerm],
) -> Result<Option<NameError>, AllocError>
    ensures { IfOk result (λ o. o ≡ first_of (unknown_in sig.now vocabulary.now) (mentions_of_goals (goals_of (map goal_data goals.now)))) }
{
    for goal in goals {
        if let Some(fault) = first_in_goal(alloc, sig, vocabulary, goal)? {
            return Ok(Some(fault));
        }
    }
    Ok(None)
}

/// The fault of the first mention, where there is a goal, that is not known.
pub(crate) fn first_in_some(
    alloc: Global,
    sig: &Signature,
    vocabulary: &Vocabulary,
    goal: &Option<GoalTerm>,
) -> Result<Option<NameError>, AllocError>
    ensures { IfOk result (λ o. o ≡ first_of (unknown_in sig.now vocabulary.now) (mentions_of_some (option_map goal_data goal.now))) }
{
    match goal {
        None => Ok(None),
        Some(inner) => first_in_goal(alloc, sig, vocabulary, inner),
    }
}

/// The fault of the first mention of a goal, from left to right, that is not known.
#[tactic(auto, using(crate::proofs::Found::answer_first, crate::proofs::Found::answer_none))]
pub fn first_unknown_in_goal(
    alloc: Global,
    sig: &Signature,
    vocabulary: &Vocabulary,
    goal: &GoalTerm,
) -> Result<Option<NameError>, AllocError>
    ensures value { IfOk result (λ o. o ≡ first_of (unknown_in sig.now vocabulary.now) (mentions_of_goal (goal_data goal.now))) }
    ensures first { IfOk result (λ o. IfSome o (IsFirst (IsUnknown sig.now vocabulary.now) (mentions_of_goal (goal_data goal.now)))) }
    ensures none { IfOk result (λ o. IfNone o (AllRight (IsUnknown sig.now vocabulary.now) (mentions_of_goal (goal_data goal.now)))) }
{
    first_in_goal(alloc, sig, vocabulary, goal)
}
