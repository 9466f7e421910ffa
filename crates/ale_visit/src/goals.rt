//! How a search goes on where a goal is to be derived, or a predicate is called.
ghost use Rattle.std.specs.Prelude.{◌≡◌, ◌≤◌, ◌⊎◌, ◌++◌, IfOk, OnOk, map, ◌∷◌, []};
ghost use Rattle.ale_logic.specs.Descriptions.{description, descriptions_of};
ghost use Rattle.ale_logic.specs.States as plain;
ghost use Rattle.ale_logic.specs.States.{doing_all, numbered};
ghost use Rattle.ale_logic.specs.GoalKids.{numbers, items_each, goals, equating, calling, goal_kids, by_clause, clause_kids};
ghost use Rattle.ale_logic.specs.Programs.{clauses_of};
ghost use Rattle.ale_program.specs.Goals.{goal_data, goals_of};
ghost use Rattle.ale_program.specs.Views.{clause_data};
ghost use Rattle.ale_visit.specs.Views.{agenda_of, grammar, item_of, state_of, states_of};

use crate::choosing::{both, goal_alternatives, only};
use crate::items::{Demand, Item};
use crate::state::{State, added, choose, copy, doing, growing, with_env};
use ale_logic::Desc;
use ale_program::{Clause, Goal, Program};
use std::alloc::{AllocError, Global};

/// The lower of two numbers.
fn fewer(left: usize, right: usize) -> usize
    ensures left { result ≤ left }
    ensures right { result ≤ right }
    ensures either { (result ≡ left) ⊎ (result ≡ right) }
{
    if left < right { left } else { right }
}

/// Puts the descriptions at the nodes before what is there, the first at the first and so on.
fn push_each<'a>(
    agenda: &mut Vec<Item<'a>>,
    env: usize,
    descs: &'a [Desc],
    first: usize,
    count: usize,
) -> Result<(), AllocError>
    ensures { OnOk result (agenda_of agenda.new.items
        ≡ items_each env (descriptions_of (map description descs.now)) (numbers first count) ++ agenda_of agenda.old.items) }
{
    let mut left = fewer(descs.len(), count);
    while left > 0 {
        left -= 1;
        let node = added(first, left)?;
        agenda.push(Item::On(node, Demand::Holds(env, &descs[left])))?;
    }
    Ok(())
}

/// Puts each of the goals before what is there.
fn push_goals<'a>(
    agenda: &mut Vec<Item<'a>>,
    env: usize,
    cut: usize,
    parts: &'a [Goal],
) -> Result<(), AllocError>
    ensures { OnOk result (agenda_of agenda.new.items
        ≡ goals env cut (goals_of (map goal_data parts.now)) ++ agenda_of agenda.old.items) }
{
    let mut left = parts.len();
    while left > 0 {
        left -= 1;
        agenda.push(Item::Derive(env, cut, &parts[left]))?;
    }
    Ok(())
}

/// The state with a new node, at which both descriptions are to hold.
fn equating<'a>(
    state: State<'a>,
    env: usize,
    left: &'a Desc,
    right: &'a Desc,
) -> Result<State<'a>, AllocError>
    ensures { IfOk result (λ s. state_of s ≡ equating env (description left.now) (description right.now) (state_of state.entry)) }
{
    let node = state.next;
    let state = growing(state, 1)?;
    let state = doing(state, Item::On(node, Demand::Holds(env, right)))?;
    doing(state, Item::On(node, Demand::Holds(env, left)))
}

/// The state in which the predicate is called of new nodes, at which the descriptions are to hold.
#[tactic(auto, using(crate::proofs::Turned::how_many_described))]
fn calling<'a>(
    state: State<'a>,
    env: usize,
    pred: u32,
    args: &'a [Desc],
) -> Result<State<'a>, AllocError>
    ensures { IfOk result (λ s. state_of s ≡ calling env pred (descriptions_of (map description args.now)) (state_of state.entry)) }
{
    let first = state.next;
    let state = growing(state, args.len())?;
    let mut state = doing(state, Item::Called(pred, first, args.len()))?;
    push_each(&mut state.agenda, env, args, first, args.len())?;
    Ok(state)
}

/// The state in which the goal is tried: it is derived with as many states waiting as its cut height, and once it is
/// derived all that wait since then are dropped.
fn trying<'a>(
    state: State<'a>,
    waiting: usize,
    env: usize,
    goal: &'a Goal,
    then: Item<'a>,
) -> Result<State<'a>, AllocError>
    ensures { IfOk result (λ s. state_of s
        ≡ doing_all (plain.derive env waiting (goal_data goal.now) ∷ plain.cuts waiting ∷ item_of then.entry ∷ []) (state_of state.entry)) }
{
    let state = doing(state, then)?;
    let state = doing(state, Item::Cuts(waiting))?;
    doing(state, Item::Derive(env, waiting, goal))
}

/// The states that come in place of one whose first item is a goal, while so many others wait.
#[tactic(auto, using(ale_program::proofs::GoalRules::goal_rules))]
pub fn derived<'a>(
    alloc: Global,
    mut state: State<'a>,
    waiting: usize,
    env: usize,
    cut: usize,
    goal: &'a Goal,
) -> Result<Vec<State<'a>>, AllocError>
    ensures { IfOk result (λ v. states_of v.items ≡ numbered 0 (goal_kids waiting env cut (goal_data goal.now) (state_of state.entry))) }
{
    match goal {
        Goal::Yes | Goal::Cut => only(alloc, state),
        Goal::All(goals) => {
            push_goals(&mut state.agenda, env, cut, goals.as_slice())?;
            only(alloc, state)
        }
        Goal::Any(goals) => goal_alternatives(alloc, state, env, cut, goals.as_slice()),
        Goal::Equal(left, right) => {
            let kid = equating(state, env, left, right)?;
            only(alloc, kid)
        }
        Goal::Call(pred, args) => {
            let kid = calling(state, env, *pred, args.as_slice())?;
            only(alloc, kid)
        }
        Goal::Not(goal) => {
            let kid = trying(copy(alloc, &state)?, waiting, env, goal.get(), Item::Stop)?;
            both(alloc, kid, state)
        }
        Goal::IfElse(goal, then, other) => {
            let then = Item::Derive(env, cut, then.get());
            let first = trying(copy(alloc, &state)?, waiting, env, goal.get(), then)?;
            let second = doing(state, Item::Derive(env, cut, other.get()))?;
            both(alloc, first, second)
        }
        Goal::Once(goal, then) => {
            let then = Item::Derive(env, cut, then.get());
            let kid = trying(state, waiting, env, goal.get(), then)?;
            only(alloc, kid)
        }
    }
}

/// The state that goes on by the clause, in a new environment: its arguments at the nodes, then its body.
fn by_clause<'a>(
    alloc: Global,
    state: State<'a>,
    waiting: usize,
    clause: &'a Clause,
    first: usize,
    count: usize,
) -> Result<State<'a>, AllocError>
    ensures { IfOk result (λ s. state_of s ≡ by_clause waiting (numbers first count) (clause_data clause.now) (state_of state.entry)) }
{
    let env = state.envs.len();
    let state = with_env(alloc, state, clause.slots)?;
    let mut state = doing(state, Item::Derive(env, waiting, &clause.body))?;
    push_each(&mut state.agenda, env, clause.args.as_slice(), first, count)?;
    Ok(state)
}

/// A state for each of the clauses, in order and numbered. All but the last copy what they go on with.
fn by_clauses<'a>(
    alloc: Global,
    state: State<'a>,
    waiting: usize,
    clauses: &'a [Clause],
    first: usize,
    count: usize,
) -> Result<Vec<State<'a>>, AllocError>
    ensures { IfOk result (λ v. states_of v.items
        ≡ numbered 0 (clause_kids waiting (numbers first count) (map clause_data clauses.now) (state_of state.entry))) }
{
    let mut kids = Vec::new(alloc);
    let Some((last, others)) = clauses.split_last() else {
        return Ok(kids);
    };
    for (number, clause) in others.iter().enumerate() {
        let kid = by_clause(alloc, copy(alloc, &state)?, waiting, clause, first, count)?;
        kids.push(choose(kid, number)?)?;
    }
    let kid = by_clause(alloc, state, waiting, last, first, count)?;
    kids.push(choose(kid, others.len())?)?;
    Ok(kids)
}

/// The clauses of the predicate with this number; none where there is no such predicate.
fn clauses_of(program: &Program, pred: u32) -> &[Clause]
    ensures { map clause_data result.now ≡ clauses_of (grammar program.now).program pred }
{
    match program.preds().get(pred as usize) {
        Some(pred) => pred.clauses.as_slice(),
        None => &[],
    }
}

/// The states that come in place of one whose first item is a call of the predicate with this number, of so many nodes
/// from the first on, while so many others wait.
pub fn called<'a>(
    alloc: Global,
    program: &'a Program,
    state: State<'a>,
    waiting: usize,
    pred: u32,
    first: usize,
    count: usize,
) -> Result<Vec<State<'a>>, AllocError>
    ensures { IfOk result (λ v. states_of v.items
        ≡ numbered 0 (clause_kids waiting (numbers first count) (clauses_of (grammar program.now).program pred) (state_of state.entry))) }
{
    by_clauses(
        alloc,
        state,
        waiting,
        clauses_of(program, pred),
        first,
        count,
    )
}
