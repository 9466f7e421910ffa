//! Several descriptions or goals as one. A single one is nothing of its own.
ghost use Rattle.std.specs.Prelude.{◌≡◌, ◌∷◌, Some, map};
ghost use Rattle.ale_term.specs.Results.{Gives};
ghost use Rattle.ale_term.specs.Terms.{term_data, all_of, any_of};
ghost use Rattle.ale_term.specs.Goals.{goal_data, each_of, either_of};

use crate::error::ReadError;
use crate::goal_term::GoalTerm;
use crate::list::joined;
use crate::term::Term;
use sqlite_items::Items;
use std::alloc::Global;

/// The conjunction of these descriptions.
#[tactic(auto, using(crate::proofs::Terms::term_rules))]
pub(crate) fn all_of(alloc: Global, first: Term, others: Vec<Term>) -> Result<Term, ReadError>
    ensures { Gives term_data result (Some (all_of (term_data first ∷ map term_data others.items))) }
{
    if others.is_empty() {
        return Ok(first);
    }
    Ok(Term::All(Items::from_vec(joined(alloc, first, others)?)))
}

/// The disjunction of these descriptions.
#[tactic(auto, using(crate::proofs::Terms::term_rules))]
pub(crate) fn any_of(alloc: Global, first: Term, others: Vec<Term>) -> Result<Term, ReadError>
    ensures { Gives term_data result (Some (any_of (term_data first ∷ map term_data others.items))) }
{
    if others.is_empty() {
        return Ok(first);
    }
    Ok(Term::Any(Items::from_vec(joined(alloc, first, others)?)))
}

/// The conjunction of these goals.
#[tactic(auto, using(crate::proofs::Terms::goal_rules))]
pub(crate) fn each_of(
    alloc: Global,
    first: GoalTerm,
    others: Vec<GoalTerm>,
) -> Result<GoalTerm, ReadError>
    ensures { Gives goal_data result (Some (each_of (goal_data first ∷ map goal_data others.items))) }
{
    if others.is_empty() {
        return Ok(first);
    }
    Ok(GoalTerm::All(Items::from_vec(joined(alloc, first, others)?)))
}

/// The disjunction of these goals.
#[tactic(auto, using(crate::proofs::Terms::goal_rules))]
pub(crate) fn either_of(goals: Vec<GoalTerm>) -> GoalTerm
    ensures { goal_data result ≡ either_of (map goal_data goals.items) }
{
    let mut goals = goals;
    if goals.len() == 1
        && let Some(only) = goals.pop()
    {
        return only;
    }
    GoalTerm::Any(Items::from_vec(goals))
}
