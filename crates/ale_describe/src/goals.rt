//! Goals that written ones stand for.
ghost use Rattle.std.specs.Prelude.{◌≡◌, IfOk, map, length};
ghost use Rattle.ale_relation.specs.Has.{Has};
ghost use Rattle.ale_declared.specs.Names.{number};
ghost use Rattle.ale_logic.specs.Goals as plain;
ghost use Rattle.ale_term.specs.Terms.{term_data};
ghost use Rattle.ale_term.specs.Goals as written;
ghost use Rattle.ale_vocabulary.specs.First.{AllRight};
ghost use Rattle.ale_vocabulary.specs.Keys.{key};
ghost use Rattle.ale_vocabulary.specs.Knowing.{IsUnknown};
ghost use Rattle.ale_vocabulary.specs.Mentions.{mentions_of_goal};
ghost use Rattle.ale_program.specs.Goals.{goal_data, goals_of};
ghost use Rattle.ale_describe.specs.Known.{IsKnownTerm, AreKnownEach, IsKnownGoal, AreKnownGoals};
ghost use Rattle.ale_describe.specs.Describing.{described, each_described, goal_described, goals_described};

use crate::looking::predicate_number;
use crate::names::Names;
use crate::scope::Scope;
use ale_program::Goal;
use ale_signature::Signature;
use ale_term::{GoalTerm, Term};
use ale_text::Text;
use sqlite_items::{Boxed, Items};
use std::alloc::{AllocError, Global};

impl Names {
    /// The goal that the written one stands for, in the scope of its declaration. All of its names are known. The error is
    /// want of memory.
    pub fn describe_goal(
        &self,
        alloc: Global,
        sig: &Signature,
        scope: &mut Scope,
        goal: &GoalTerm,
    ) -> Result<Goal, AllocError>
        requires known { AllRight (IsUnknown sig.now self.now.vocabulary) (mentions_of_goal (written.goal_data goal.now)) }
        ensures { IfOk result (λ g. (goal_data g, scope.new) ≡ goal_described sig.now self.now scope.old (written.goal_data goal.now)) }
    {
        goal_described(alloc, self, sig, scope, goal)
    }
}

/// The goal that two descriptions hold at one node.
#[tactic(auto, using(ale_program::proofs::GoalRules::goal_rules))]
fn equal_described(
    alloc: Global,
    names: &Names,
    sig: &Signature,
    scope: &mut Scope,
    first: &Term,
    second: &Term,
) -> Result<Goal, AllocError>
    requires first { IsKnownTerm sig.now names.now.vocabulary (term_data first.now) }
    requires second { IsKnownTerm sig.now names.now.vocabulary (term_data second.now) }
    ensures { IfOk result (λ g. (goal_data g, scope.new) ≡ goal_described sig.now names.now scope.old (written.equal (term_data first.now) (term_data second.now))) }
{
    let first = names.described(alloc, sig, scope, first)?;
    let second = names.described(alloc, sig, scope, second)?;
    Ok(Goal::Equal(first, second))
}

/// The goal that a predicate holds of nodes with these descriptions.
#[tactic(auto, using(ale_program::proofs::GoalRules::goal_rules, crate::proofs::Each::map_rules))]
fn call_described(
    alloc: Global,
    names: &Names,
    sig: &Signature,
    scope: &mut Scope,
    name: &Text,
    arguments: &[Term],
) -> Result<Goal, AllocError>
    requires predicate { Has names.now.vocabulary.predicates (key name.now (length arguments.now)) }
    requires known { AreKnownEach sig.now names.now.vocabulary (map term_data arguments.now) }
    ensures { IfOk result (λ g. (goal_data g, scope.new) ≡ goal_described sig.now names.now scope.old (written.call name.now (map term_data arguments.now))) }
{
    let number = predicate_number(names.vocabulary(), name, arguments.len())?;
    let arguments = names.each_described(alloc, sig, scope, arguments)?;
    Ok(Goal::Call(number, arguments))
}

/// The goal that this one cannot be derived.
#[tactic(auto, using(ale_program::proofs::GoalRules::goal_rules))]
fn negation(alloc: Global, goal: Goal) -> Result<Goal, AllocError>
    ensures { IfOk result (λ g. goal_data g ≡ plain.unless (goal_data goal)) }
{
    Ok(Goal::Not(Boxed::new(alloc, goal)?))
}

/// The goal of the second where the first can be derived, else of the third.
#[tactic(auto, using(ale_program::proofs::GoalRules::goal_rules))]
fn choice(alloc: Global, condition: Goal, then: Goal, other: Goal) -> Result<Goal, AllocError>
    ensures { IfOk result (λ g. goal_data g ≡ plain.if_else (goal_data condition) (goal_data then) (goal_data other)) }
{
    let condition = Boxed::new(alloc, condition)?;
    let then = Boxed::new(alloc, then)?;
    let other = Boxed::new(alloc, other)?;
    Ok(Goal::IfElse(condition, then, other))
}

/// The goal of the second where the first can be derived.
#[tactic(auto, using(ale_program::proofs::GoalRules::goal_rules))]
fn implication(alloc: Global, condition: Goal, then: Goal) -> Result<Goal, AllocError>
    ensures { IfOk result (λ g. goal_data g ≡ plain.once (goal_data condition) (goal_data then)) }
{
    let condition = Boxed::new(alloc, condition)?;
    let then = Boxed::new(alloc, then)?;
    Ok(Goal::Once(condition, then))
}

/// The goal that the written one stands for.
#[cycle(describing)]
#[tactic(auto, using(ale_program::proofs::GoalRules::goal_rules, ale_term::proofs::Terms::goal_rules))]
fn goal_described(
    alloc: Global,
    names: &Names,
    sig: &Signature,
    scope: &mut Scope,
    goal: &GoalTerm,
) -> Result<Goal, AllocError>
    requires known { IsKnownGoal sig.now names.now.vocabulary (written.goal_data goal.now) }
    ensures { IfOk result (λ g. (goal_data g, scope.new) ≡ goal_described sig.now names.now scope.old (written.goal_data goal.now)) }
{
    match goal {
        GoalTerm::Yes => Ok(Goal::Yes),
        GoalTerm::Cut => Ok(Goal::Cut),
        GoalTerm::All(goals) => {
            let parts = goals_described(alloc, names, sig, scope, goals.as_slice())?;
            Ok(Goal::All(parts))
        }
        GoalTerm::Any(goals) => {
            let parts = goals_described(alloc, names, sig, scope, goals.as_slice())?;
            Ok(Goal::Any(parts))
        }
        GoalTerm::Equal(first, second) => equal_described(alloc, names, sig, scope, first, second),
        GoalTerm::Call(name, arguments) => call_described(
            alloc,
            names,
            sig,
            scope,
            name,
            arguments.as_slice(),
        ),
        GoalTerm::Not(inner) => {
            let inner = goal_described(alloc, names, sig, scope, inner.get())?;
            negation(alloc, inner)
        }
        GoalTerm::IfElse(condition, then, other) => {
            let condition = goal_described(alloc, names, sig, scope, condition.get())?;
            let then = goal_described(alloc, names, sig, scope, then.get())?;
            let other = goal_described(alloc, names, sig, scope, other.get())?;
            choice(alloc, condition, then, other)
        }
        GoalTerm::Once(condition, then) => {
            let condition = goal_described(alloc, names, sig, scope, condition.get())?;
            let then = goal_described(alloc, names, sig, scope, then.get())?;
            implication(alloc, condition, then)
        }
    }
}

/// The goals that the written ones stand for, one after another in one scope.
#[cycle(describing)]
fn goals_described(
    alloc: Global,
    names: &Names,
    sig: &Signature,
    scope: &mut Scope,
    goals: &[GoalTerm],
) -> Result<Items<Goal>, AllocError>
    requires known { AreKnownGoals sig.now names.now.vocabulary (written.goals_of (map written.goal_data goals.now)) }
    ensures { IfOk result (λ gs. (goals_of (map goal_data gs), scope.new) ≡ goals_described sig.now names.now scope.old (written.goals_of (map written.goal_data goals.now))) }
{
    let mut found = Vec::new(alloc);
    for goal in goals {
        let described = goal_described(alloc, names, sig, scope, goal)?;
        found.push(described)?;
    }
    Ok(Items::from_vec(found))
}
