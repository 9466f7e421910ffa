ghost use Rattle.std.specs.Prelude.{◌≡◌, ◌<◌, ℕ, IfOk, length, [], ◌∷◌};
ghost use Rattle.ale_hierarchy.specs.Order.{hierarchy};
ghost use Rattle.ale_graph.specs.Filling.{class_value};
ghost use Rattle.ale_graph.specs.Closure.{class_of};
ghost use Rattle.ale_logic.specs.Descriptions.{description, FitsDescription};
ghost use Rattle.ale_logic.specs.States.{env_at, holds, on, take, numbered};
ghost use Rattle.ale_logic.specs.WellFormed.{IsState};
ghost use Rattle.ale_logic.specs.Visits.{visit, kids};
ghost use Rattle.ale_search.specs.Views.{bare, demand_of, item_of, rest_of, state_of, states_of, visited_of, IsKnown, IsKnownDemand};

use crate::choosing::alternatives;
use crate::state::{Demand, Item, Rest, State, choose, going, push_all, telling};
use crate::stepping::{binding, differing, equating_paths, leading, stepping};
use ale_graph::{Closed, Fact, close};
use ale_logic::Desc;
use ale_signature::{FeatId, Signature};
use std::alloc::{AllocError, Global};

/// What a visit gives.
#[derive(Drop)]
pub enum Visited<'a> {
    /// Nothing is left to do in the state, whose closure this is.
    Answers(Closed, State<'a>),
    /// How many of the waiting states stay, and the states that come in place of the one visited, in order.
    Goes(usize, Vec<State<'a>>),
}

/// The class that is the value of the node's class by the feature.
fn value_at(closed: &Closed, node: usize, feature: &FeatId) -> Option<usize>
    ensures { result ≡ class_value (class_of closed.now) closed.now.facts (class_of closed.now node) feature.now }
{
    let at = closed.class_of(node);
    for fact in closed.facts.as_slice() {
        if let Fact::Value(from, by, to) = fact
            && by.index() == feature.index()
            && closed.class_of(*from) == at
        {
            return Some(closed.class_of(*to));
        }
    }
    None
}

/// One state alone, as the first kid.
fn only<'a>(alloc: Global, state: State<'a>) -> Result<Vec<State<'a>>, AllocError>
    ensures { IfOk result (λ v. states_of v.items ≡ numbered 0 (state_of state.entry ∷ [])) }
{
    let mut kids = Vec::new(alloc);
    kids.push(choose(state, 0)?)?;
    Ok(kids)
}

/// The states that come in place of one whose first item is a description at a node.
#[tactic(auto, using(ale_logic::proofs::Terms::description_rules), unfolding(ale_hierarchy::specs::Order::hierarchy))]
fn described<'a>(
    alloc: Global,
    sig: &Signature,
    mut rest: Rest<'a>,
    env: usize,
    node: usize,
    desc: &'a Desc,
) -> Result<Vec<State<'a>>, AllocError>
    requires env { env < length rest.envs.items }
    requires fits { FitsDescription (hierarchy sig.now) (length (env_at rest.envs.items env)) (description desc.now) }
    ensures { IfOk result (λ v. states_of v.items
        ≡ numbered 0 (kids (bare (hierarchy sig.now)) 0 rest.entry.closed (on node (holds env (description desc.now))) (rest_of rest.entry))) }
{
    match desc {
        Desc::OfType(t) => {
            let kid = telling(rest, Fact::OfType(node, *t))?;
            only(alloc, kid)
        }
        Desc::Slot(slot) => {
            let kid = binding(alloc, rest, env, *slot as usize, node)?;
            only(alloc, kid)
        }
        Desc::At(feature, inner) => {
            let kid = stepping(sig, rest, node, feature, Demand::Holds(env, inner.get()))?;
            only(alloc, kid)
        }
        Desc::All(parts) => {
            push_all(&mut rest.agenda, env, node, parts.as_slice())?;
            only(alloc, going(rest))
        }
        Desc::Any(parts) => alternatives(alloc, going(rest), env, node, parts.as_slice()),
        Desc::Differs(inner) => {
            let kid = differing(rest, env, node, inner.get())?;
            only(alloc, kid)
        }
        Desc::Meet(left, right) => {
            let kid = equating_paths(sig, rest, node, left.as_slice(), node, right.as_slice())?;
            only(alloc, kid)
        }
    }
}

/// The states that come in place of one whose first item is a demand of a node.
fn demanded<'a>(
    alloc: Global,
    sig: &Signature,
    rest: Rest<'a>,
    node: usize,
    demand: Demand<'a>,
) -> Result<Vec<State<'a>>, AllocError>
    requires { IsKnownDemand (hierarchy sig.now) rest.envs.items (demand_of demand) }
    ensures { IfOk result (λ v. states_of v.items
        ≡ numbered 0 (kids (bare (hierarchy sig.now)) 0 rest.entry.closed (on node (demand_of demand.entry)) (rest_of rest.entry))) }
{
    match demand {
        Demand::Holds(env, desc) => described(alloc, sig, rest, env, node, desc),
        Demand::EndsWith(path, other, other_path) => {
            let kid = equating_paths(sig, rest, node, path, other, other_path)?;
            only(alloc, kid)
        }
        Demand::Leads(path, end) => {
            let kid = leading(sig, rest, node, path, end)?;
            only(alloc, kid)
        }
    }
}

/// The states that come in place of one whose first item is a demand of a value.
#[tactic(auto, using(crate::proofs::Turned::turned_push))]
fn taken<'a>(
    alloc: Global,
    sig: &Signature,
    mut rest: Rest<'a>,
    node: usize,
    feature: &FeatId,
    demand: Demand<'a>,
) -> Result<Vec<State<'a>>, AllocError>
    ensures { IfOk result (λ v. states_of v.items
        ≡ numbered 0 (kids (bare (hierarchy sig.now)) 0 rest.entry.closed (take node feature.now (demand_of demand.entry)) (rest_of rest.entry))) }
{
    let _ = sig;
    match value_at(&rest.closed, node, feature) {
        Some(value) => {
            rest.agenda.push(Item::On(value, demand))?;
            only(alloc, going(rest))
        }
        None => Ok(Vec::new(alloc)),
    }
}

/// The states that come in place of one, by its first item.
fn kids_of<'a>(
    alloc: Global,
    sig: &Signature,
    rest: Rest<'a>,
    item: Item<'a>,
) -> Result<Vec<State<'a>>, AllocError>
    requires { IsKnown (hierarchy sig.now) rest.envs.items (item_of item) }
    ensures { IfOk result (λ v. states_of v.items
        ≡ numbered 0 (kids (bare (hierarchy sig.now)) 0 rest.entry.closed (item_of item.entry) (rest_of rest.entry))) }
{
    match item {
        Item::On(node, demand) => demanded(alloc, sig, rest, node, demand),
        Item::Take(node, feature, demand) => taken(alloc, sig, rest, node, feature, demand),
    }
}

/// One visit of a state, while so many others wait.
#[tactic(auto, unfolding(ale_logic::specs::Visits::visit))]
pub fn visit<'a>(
    alloc: Global,
    sig: &Signature,
    waiting: usize,
    state: State<'a>,
) -> Result<Visited<'a>, AllocError>
    requires { IsState (hierarchy sig.now) (state_of state) }
    ensures { IfOk result (λ v. visited_of v ≡ visit (bare (hierarchy sig.now)) waiting (state_of state.entry)) }
{
    let Some(closed) = close(alloc, sig, state.facts.as_slice(), state.next)? else {
        return Ok(Visited::Goes(waiting, Vec::new(alloc)));
    };
    let State {
        facts,
        next,
        envs,
        choices,
        mut agenda,
    } = state;
    match agenda.pop() {
        None => Ok(Visited::Answers(
            closed,
            State {
                facts,
                next,
                envs,
                choices,
                agenda,
            },
        )),
        Some(item) => {
            let rest = Rest {
                closed,
                envs,
                choices,
                agenda,
            };
            Ok(Visited::Goes(waiting, kids_of(alloc, sig, rest, item)?))
        }
    }
}
