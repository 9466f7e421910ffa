//! How many parts descriptions have when all is put in.
ghost use Rattle.std.specs.Prelude.{◌≡◌, IfOk, Some, [], ◌∷◌, ◌+◌, map, option_map};
ghost use Rattle.ale_term.specs.Terms.{term_data};
ghost use Rattle.ale_term.specs.Goals.{goal_data, goals_of};
ghost use Rattle.ale_vocabulary.specs.First.{AllRight};
ghost use Rattle.ale_vocabulary.specs.Knowing.{IsUnknown};
ghost use Rattle.ale_vocabulary.specs.Mentions.{mentions, mentions_of_goal};
ghost use Rattle.ale_describe.specs.Known.{IsKnownTerm, AreKnownEach, IsKnownGoal, AreKnownGoals};
ghost use Rattle.ale_describe.specs.Limits.{if_within_all, sum_after, descriptions_in, descriptions_in_all};

use crate::names::Names;
use crate::slots::Slots;
use crate::templates::templated;
use ale_signature::Signature;
use ale_term::{GoalTerm, Term};
use std::alloc::{AllocError, Global};

/// The number, where it is no more than all descriptions may have: 4,000,000.
fn if_within_all(sum: u64) -> Option<u64>
    ensures { result ≡ if_within_all (Some sum) }
{
    if sum <= 4_000_000 { Some(sum) } else { None }
}

/// The sum, where it is no more than all descriptions may have.
fn added(so_far: u64, parts: u32) -> Option<u64>
    ensures { result ≡ if_within_all (Some (so_far + parts)) }
{
    if_within_all(so_far.checked_add(u64::from(parts))?)
}

/// The sum with the parts of one description, where these are within its limits.
fn sum_with(so_far: u64, parts: Option<u32>) -> Option<u64>
    ensures { result ≡ if_within_all (option_map (λ n. so_far + n) parts) }
{
    added(so_far, parts?)
}

/// The sum, where there is one and it is no more than all descriptions may have.
fn limited(sum: Option<u64>) -> Option<u64>
    ensures { result ≡ if_within_all sum }
{
    if_within_all(sum?)
}

impl Names {
    /// How many parts there are after this description, when all is put in. None where it has more than 100,000 parts, is nested
    /// more than 4,000 deep, or there are more than 4,000,000 parts then. All of its names are known.
    pub fn parts_after(
        &self,
        alloc: Global,
        sig: &Signature,
        so_far: u64,
        term: &Term,
    ) -> Result<Option<u64>, AllocError>
        requires known { AllRight (IsUnknown sig.now self.now.vocabulary) (mentions (term_data term.now)) }
        ensures { IfOk result (λ sum. sum ≡ sum_after sig.now self.now (Some so_far) (term_data term.now ∷ [])) }
    {
        term_parts(alloc, self, sig, so_far, term)
    }

    /// How many parts there are after the descriptions of this goal, likewise: each argument of a call and each side of `=` is a
    /// description.
    pub fn parts_after_goal(
        &self,
        alloc: Global,
        sig: &Signature,
        so_far: u64,
        goal: &GoalTerm,
    ) -> Result<Option<u64>, AllocError>
        requires known { AllRight (IsUnknown sig.now self.now.vocabulary) (mentions_of_goal (goal_data goal.now)) }
        ensures { IfOk result (λ sum. sum ≡ sum_after sig.now self.now (Some so_far) (descriptions_in (goal_data goal.now))) }
    {
        goal_parts(alloc, self, sig, Some(so_far), goal)
    }
}

/// How many parts there are after this description.
fn term_parts(
    alloc: Global,
    names: &Names,
    sig: &Signature,
    so_far: u64,
    term: &Term,
) -> Result<Option<u64>, AllocError>
    requires known { IsKnownTerm sig.now names.now.vocabulary (term_data term.now) }
    ensures { IfOk result (λ sum. sum ≡ sum_after sig.now names.now (Some so_far) (term_data term.now ∷ [])) }
{
    let mut slots = Slots::new(alloc);
    let template = templated(alloc, sig, names.vocabulary(), &mut slots, term)?;
    let parts = names.library().measured(alloc, &template)?;
    Ok(sum_with(so_far, parts))
}

/// How many parts there are after this description, where there was a sum before it.
fn more_parts(
    alloc: Global,
    names: &Names,
    sig: &Signature,
    sum: Option<u64>,
    term: &Term,
) -> Result<Option<u64>, AllocError>
    requires known { IsKnownTerm sig.now names.now.vocabulary (term_data term.now) }
    ensures { IfOk result (λ more. more ≡ sum_after sig.now names.now sum (term_data term.now ∷ [])) }
{
    match sum {
        Some(so_far) => term_parts(alloc, names, sig, so_far, term),
        None => Ok(None),
    }
}

/// How many parts there are after these two descriptions.
fn two_parts(
    alloc: Global,
    names: &Names,
    sig: &Signature,
    sum: Option<u64>,
    first: &Term,
    second: &Term,
) -> Result<Option<u64>, AllocError>
    requires first { IsKnownTerm sig.now names.now.vocabulary (term_data first.now) }
    requires second { IsKnownTerm sig.now names.now.vocabulary (term_data second.now) }
    ensures { IfOk result (λ more. more ≡ sum_after sig.now names.now sum (term_data first.now ∷ term_data second.now ∷ [])) }
{
    let between = more_parts(alloc, names, sig, sum, first)?;
    let after = more_parts(alloc, names, sig, between, second)?;
    Ok(after)
}

/// How many parts there are after these descriptions.
fn each_parts(
    alloc: Global,
    names: &Names,
    sig: &Signature,
    before: Option<u64>,
    terms: &[Term],
) -> Result<Option<u64>, AllocError>
    requires known { AreKnownEach sig.now names.now.vocabulary (map term_data terms.now) }
    ensures { IfOk result (λ sum. sum ≡ sum_after sig.now names.now before (map term_data terms.now)) }
{
    let mut sum = before;
    for term in terms {
        sum = more_parts(alloc, names, sig, sum, term)?;
    }
    Ok(limited(sum))
}

/// How many parts there are after the descriptions of this goal.
#[cycle(summing)]
#[tactic(auto, using(ale_term::proofs::Terms::goal_rules, crate::proofs::Adding::sum_rules))]
fn goal_parts(
    alloc: Global,
    names: &Names,
    sig: &Signature,
    before: Option<u64>,
    goal: &GoalTerm,
) -> Result<Option<u64>, AllocError>
    requires known { IsKnownGoal sig.now names.now.vocabulary (goal_data goal.now) }
    ensures { IfOk result (λ sum. sum ≡ sum_after sig.now names.now before (descriptions_in (goal_data goal.now))) }
{
    match goal {
        GoalTerm::Yes | GoalTerm::Cut => Ok(limited(before)),
        GoalTerm::All(goals) | GoalTerm::Any(goals) => {
            goals_parts(alloc, names, sig, before, goals.as_slice())
        }
        GoalTerm::Equal(first, second) => two_parts(alloc, names, sig, before, first, second),
        GoalTerm::Call(_, arguments) => each_parts(alloc, names, sig, before, arguments.as_slice()),
        GoalTerm::Not(inner) => goal_parts(alloc, names, sig, before, inner.get()),
        GoalTerm::IfElse(condition, then, other) => {
            let first = goal_parts(alloc, names, sig, before, condition.get())?;
            let second = goal_parts(alloc, names, sig, first, then.get())?;
            goal_parts(alloc, names, sig, second, other.get())
        }
        GoalTerm::Once(condition, then) => {
            let first = goal_parts(alloc, names, sig, before, condition.get())?;
            goal_parts(alloc, names, sig, first, then.get())
        }
    }
}

/// How many parts there are after the descriptions of these goals.
#[cycle(summing)]
fn goals_parts(
    alloc: Global,
    names: &Names,
    sig: &Signature,
    before: Option<u64>,
    goals: &[GoalTerm],
) -> Result<Option<u64>, AllocError>
    requires known { AreKnownGoals sig.now names.now.vocabulary (goals_of (map goal_data goals.now)) }
    ensures { IfOk result (λ sum. sum ≡ sum_after sig.now names.now before (descriptions_in_all (goals_of (map goal_data goals.now)))) }
{
    let mut sum = before;
    for goal in goals {
        sum = goal_parts(alloc, names, sig, sum, goal)?;
    }
    Ok(limited(sum))
}
