//! One visit of a state.
ghost use Rattle.std.specs.Prelude.{◌≡◌, ◌<◌, IfOk, length};
ghost use Rattle.ale_hierarchy.specs.Order.{hierarchy};
ghost use Rattle.ale_graph.specs.Filling.{class_value};
ghost use Rattle.ale_graph.specs.Closure.{class_of};
ghost use Rattle.ale_logic.specs.Descriptions.{description, FitsDescription};
ghost use Rattle.ale_logic.specs.States.{env_at, holds, on, numbered};
ghost use Rattle.ale_logic.specs.DescriptionKids.{taken};
ghost use Rattle.ale_logic.specs.WellFormed.{IsState};
ghost use Rattle.ale_logic.specs.Visits.{visit, visit_item, kids, stay, stay_after, closed_at};
ghost use Rattle.ale_program.specs.Goals.{goal_data};
ghost use Rattle.ale_visit.specs.Views.{grammar, demand_of, item_of, state_of, states_of, visited_of, IsKnown, IsKnownDemand};

use crate::choosing::{alternatives, only};
use crate::goals::{called, derived};
use crate::items::{Demand, Item};
use crate::lists::split;
use crate::owing::{first_owed, with_constraint};
use crate::state::{State, at_closure, doing, telling};
use crate::stepping::{binding, differing, equating_paths, leading, push_all, stepping};
use ale_graph::{Closed, Fact, close, closure_law};
use ale_logic::Desc;
use ale_program::{Goal, Program};
use ale_signature::FeatId;
use std::alloc::{AllocError, Global};

/// What a visit gives.
#[derive(Drop)]
pub enum Visited<'a> {
    /// Nothing is left to do in the state, whose closure this is.
    Answers(Closed, State<'a>),
    /// How many of the waiting states stay, and the states that come in place of the one visited, in order.
    Goes(usize, Vec<State<'a>>),
}

/// The class that is the value of the node's class by the feature.
fn value_at(closed: &Closed, node: usize, feature: &FeatId) -> Option<usize>
    ensures { result ≡ class_value (class_of closed.now) closed.now.facts (class_of closed.now node) feature.now }
{
    let at = closed.class_of(node);
    for fact in closed.facts.as_slice() {
        if let Fact::Value(from, by, to) = fact
            && by.index() == feature.index()
            && closed.class_of(*from) == at
        {
            return Some(closed.class_of(*to));
        }
    }
    None
}

/// The states that come in place of one, at its closure, whose first item is a description at a node.
#[tactic(auto, using(ale_logic::proofs::Terms::description_rules), unfolding(ale_hierarchy::specs::Order::hierarchy))]
fn described<'a>(
    alloc: Global,
    program: &'a Program,
    mut state: State<'a>,
    env: usize,
    node: usize,
    desc: &'a Desc,
) -> Result<Vec<State<'a>>, AllocError>
    requires env { env < length state.envs.items }
    requires desc { FitsDescription (hierarchy program.now.signature) (length (env_at state.envs.items env)) (description desc.now) }
    ensures { IfOk result (λ v. (waiting : _) (c : _) → states_of v.items
        ≡ numbered 0 (kids (grammar program.now) waiting c (on node (holds env (description desc.now))) (state_of state.entry))) }
{
    match desc {
        Desc::OfType(t) => {
            let kid = telling(state, Fact::OfType(node, *t))?;
            only(alloc, kid)
        }
        Desc::Slot(slot) => {
            let kid = binding(alloc, state, env, *slot as usize, node)?;
            only(alloc, kid)
        }
        Desc::At(feature, inner) => {
            let demand = Demand::Holds(env, inner.get());
            let kid = stepping(program.signature(), state, node, feature, demand)?;
            only(alloc, kid)
        }
        Desc::All(parts) => {
            push_all(&mut state.agenda, env, node, parts.as_slice())?;
            only(alloc, state)
        }
        Desc::Any(parts) => alternatives(alloc, state, env, node, parts.as_slice()),
        Desc::Differs(inner) => {
            let kid = differing(state, env, node, inner.get())?;
            only(alloc, kid)
        }
        Desc::Meet(left, right) => {
            let kid = equating_paths(
                program.signature(),
                state,
                node,
                left.as_slice(),
                node,
                right.as_slice(),
            )?;
            only(alloc, kid)
        }
    }
}

/// The states that come in place of one, at its closure, whose first item is a demand of a node.
fn demanded<'a>(
    alloc: Global,
    program: &'a Program,
    state: State<'a>,
    node: usize,
    demand: Demand<'a>,
) -> Result<Vec<State<'a>>, AllocError>
    requires { IsKnownDemand (hierarchy program.now.signature) state.envs.items (demand_of demand) }
    ensures { IfOk result (λ v. (waiting : _) (c : _) → states_of v.items
        ≡ numbered 0 (kids (grammar program.now) waiting c (on node (demand_of demand.entry)) (state_of state.entry))) }
{
    match demand {
        Demand::Holds(env, desc) => described(alloc, program, state, env, node, desc),
        Demand::EndsWith(path, other, other_path) => {
            let kid = equating_paths(program.signature(), state, node, path, other, other_path)?;
            only(alloc, kid)
        }
        Demand::Leads(path, end) => {
            let kid = leading(program.signature(), state, node, path, end)?;
            only(alloc, kid)
        }
    }
}

/// The states that come in place of one, at its closure, whose first item is a demand of a value.
fn taken<'a>(
    alloc: Global,
    state: State<'a>,
    value: Option<usize>,
    demand: Demand<'a>,
) -> Result<Vec<State<'a>>, AllocError>
    ensures { IfOk result (λ v. states_of v.items ≡ numbered 0 (taken (demand_of demand.entry) value (state_of state.entry))) }
{
    match value {
        Some(value) => {
            let kid = doing(state, Item::On(value, demand))?;
            only(alloc, kid)
        }
        None => Ok(Vec::new(alloc)),
    }
}

/// The states that come in place of one, by its first item, which is not in it any more, while so many others wait.
fn kids_of<'a>(
    alloc: Global,
    program: &'a Program,
    waiting: usize,
    closed: Closed,
    state: State<'a>,
    item: Item<'a>,
) -> Result<Vec<State<'a>>, AllocError>
    requires { IsKnown (hierarchy program.now.signature) state.envs.items (item_of item) }
    ensures { IfOk result (λ v. states_of v.items
        ≡ numbered 0 (kids (grammar program.now) waiting closed (item_of item.entry)
        (closed_at closed (state_of state.entry).agenda (state_of state.entry)))) }
{
    match item {
        Item::On(node, demand) => {
            demanded(alloc, program, at_closure(closed, state), node, demand)
        }
        Item::Take(node, feature, demand) => {
            let value = value_at(&closed, node, feature);
            taken(alloc, at_closure(closed, state), value, demand)
        }
        Item::Derive(env, cut, goal) => {
            derived(alloc, at_closure(closed, state), waiting, env, cut, goal)
        }
        Item::Called(pred, first, count) => {
            called(
                alloc,
                program,
                at_closure(closed, state),
                waiting,
                pred,
                first,
                count,
            )
        }
        Item::Cuts(_) => only(alloc, at_closure(closed, state)),
        Item::Stop => Ok(Vec::new(alloc)),
        Item::Split(node, end) => {
            split(
                alloc,
                program.signature(),
                at_closure(closed, state),
                node,
                end,
            )
        }
    }
}

/// Of so many states that wait, how many stay after the goal, with this cut height.
#[tactic(auto, using(ale_program::proofs::GoalRules::goal_rules))]
fn stay_after(waiting: usize, cut: usize, goal: &Goal) -> usize
    ensures { result ≡ stay_after waiting cut (goal_data goal.now) }
{
    match goal {
        Goal::Cut => cut,
        Goal::Yes
        | Goal::All(_)
        | Goal::Any(_)
        | Goal::Equal(_, _)
        | Goal::Call(_, _)
        | Goal::Not(_)
        | Goal::IfElse(_, _, _)
        | Goal::Once(_, _) => waiting,
    }
}

/// Of so many states that wait, how many stay after the item.
fn stay(waiting: usize, item: Item<'_>) -> usize
    ensures { result ≡ stay waiting (item_of item.entry) }
{
    match item {
        Item::Derive(_, cut, goal) => stay_after(waiting, cut, goal),
        Item::Cuts(cut) => cut,
        Item::On(_, _)
        | Item::Take(_, _, _)
        | Item::Called(_, _, _)
        | Item::Stop
        | Item::Split(_, _) => waiting,
    }
}

/// The visit of a state that owes nothing, with its closure, while so many others wait.
fn visit_item<'a>(
    alloc: Global,
    program: &'a Program,
    waiting: usize,
    closed: Closed,
    mut state: State<'a>,
) -> Result<Visited<'a>, AllocError>
    requires { IsState (hierarchy program.now.signature) (state_of state) }
    ensures { IfOk result (λ v. visited_of v
        ≡ visit_item (grammar program.now) waiting closed (state_of state.entry).agenda (state_of state.entry)) }
{
    match state.agenda.pop() {
        None => Ok(Visited::Answers(closed, state)),
        Some(item) => {
            let stay = stay(waiting, item);
            let kids = kids_of(alloc, program, waiting, closed, state, item)?;
            Ok(Visited::Goes(stay, kids))
        }
    }
}

/// One visit of a state, while so many others wait: a constraint that is owed is imposed, or else its first item is
/// done. A state in which nothing is left to do is an answer, and nothing comes of one without a closure.
#[tactic(auto, unfolding(ale_logic::specs::Visits::visit))]
pub fn visit<'a>(
    alloc: Global,
    program: &'a Program,
    waiting: usize,
    state: State<'a>,
) -> Result<Visited<'a>, AllocError>
    requires { IsState (hierarchy program.now.signature) (state_of state) }
    ensures { IfOk result (λ v. visited_of v ≡ visit (grammar program.now) waiting (state_of state.entry)) }
{
    closure_law();
    program.program_law();
    let Some(closed) = close(
        alloc,
        program.signature(),
        state.facts.as_slice(),
        state.next,
    )?
    else {
        return Ok(Visited::Goes(waiting, Vec::new(alloc)));
    };
    match first_owed(program, &closed, state.imposed.as_slice()) {
        None => visit_item(alloc, program, waiting, closed, state),
        Some(owed) => {
            let state = at_closure(closed, state);
            let kid = with_constraint(
                alloc,
                state,
                waiting,
                owed.class,
                owed.number,
                owed.constraint,
            )?;
            Ok(Visited::Goes(waiting, only(alloc, kid)?))
        }
    }
}
