//! States of the search, and how one goes on.
ghost use Rattle.std.specs.Prelude.{◌≡◌, ◌<◌, ◌+◌, IfOk, length, slice_set, Some};
ghost use Rattle.ale_logic.specs.States.{told, doing, grown, with_env, bind, bound, env_at, imposing, remaining, chosen};
ghost use Rattle.ale_logic.specs.Visits.{closed_at};
ghost use Rattle.ale_visit.specs.Views.{item_of, state_of};

use crate::items::{Element, Item};
use ale_graph::{Closed, Fact};
use ale_signature::Row;
use std::alloc::{AllocError, Global};

/// The node of each slot whose variable is bound.
pub type Environment = Row<Option<usize>>;

/// A state: facts about the nodes below `next`, the nodes on which constraints were imposed with the numbers of these,
/// the environments, the number of the kid at each state before, what is still to be done, and the elements that
/// remain. The first item and the first element stand last.
#[derive(Drop)]
pub struct State<'a> {
    pub facts: Vec<Fact>,
    pub next: usize,
    pub imposed: Vec<(usize, usize)>,
    pub envs: Vec<Environment>,
    pub choices: Vec<usize>,
    pub agenda: Vec<Item<'a>>,
    pub rest: Vec<Element<'a>>,
}

/// The state at its closure.
pub fn at_closure<'a>(closed: Closed, state: State<'a>) -> State<'a>
    ensures { state_of result ≡ closed_at closed (state_of state.entry).agenda (state_of state.entry) }
{
    let State {
        imposed,
        envs,
        choices,
        agenda,
        rest,
        ..
    } = state;
    let next = closed.next;
    State {
        facts: closed.facts.into_vec(),
        next,
        imposed,
        envs,
        choices,
        agenda,
        rest,
    }
}

/// The state with one more fact.
pub fn telling<'a>(mut state: State<'a>, fact: Fact) -> Result<State<'a>, AllocError>
    ensures { IfOk result (λ s. state_of s ≡ told fact (state_of state.entry)) }
{
    state.facts.push(fact)?;
    Ok(state)
}

/// The state with an item before what is there.
#[tactic(auto, using(crate::proofs::Turned::turned_push))]
pub fn doing<'a>(mut state: State<'a>, item: Item<'a>) -> Result<State<'a>, AllocError>
    ensures { IfOk result (λ s. state_of s ≡ doing (item_of item.entry) (state_of state.entry)) }
{
    state.agenda.push(item)?;
    Ok(state)
}

/// The sum; one that is too large to be counted gives out of memory.
pub fn added(left: usize, right: usize) -> Result<usize, AllocError>
    ensures { IfOk result (λ n. n ≡ left + right) }
{
    match left.checked_add(right) {
        Some(sum) => Ok(sum),
        None => Err(AllocError),
    }
}

/// The state with so many new nodes. More than can be counted give out of memory.
pub fn growing<'a>(state: State<'a>, count: usize) -> Result<State<'a>, AllocError>
    ensures { IfOk result (λ s. state_of s ≡ grown count (state_of state.entry)) }
{
    let State {
        facts,
        next,
        imposed,
        envs,
        choices,
        agenda,
        rest,
    } = state;
    let next = added(next, count)?;
    Ok(State {
        facts,
        next,
        imposed,
        envs,
        choices,
        agenda,
        rest,
    })
}

/// The state with a new environment, in which no variable is bound.
pub fn with_env<'a>(
    alloc: Global,
    mut state: State<'a>,
    slots: u32,
) -> Result<State<'a>, AllocError>
    ensures { IfOk result (λ s. state_of s ≡ with_env slots (state_of state.entry)) }
{
    let slots = slots as usize;
    state.envs.push(Row::of(vec![in alloc; None; slots]?))?;
    Ok(state)
}

/// The state with the constraint with this number imposed on the node.
pub fn imposing<'a>(
    mut state: State<'a>,
    node: usize,
    number: usize,
) -> Result<State<'a>, AllocError>
    ensures { IfOk result (λ s. state_of s ≡ imposing node number (state_of state.entry)) }
{
    state.imposed.push((node, number))?;
    Ok(state)
}

/// The state with the member and the tail of a list before the elements that remain.
#[tactic(auto, using(crate::proofs::Turned::turned_push))]
pub fn remaining<'a>(mut state: State<'a>, node: usize) -> Result<State<'a>, AllocError>
    ensures { IfOk result (λ s. state_of s ≡ remaining node (state_of state.entry)) }
{
    state.rest.push(Element::Tail(node))?;
    state.rest.push(Element::Member(node))?;
    Ok(state)
}

/// The state as the kid with this number.
pub fn choose<'a>(mut state: State<'a>, number: usize) -> Result<State<'a>, AllocError>
    ensures { IfOk result (λ s. state_of s ≡ chosen number (state_of state.entry)) }
{
    state.choices.push(number)?;
    Ok(state)
}

/// The environments again.
fn copy_envs(alloc: Global, envs: &[Environment]) -> Result<Vec<Environment>, AllocError>
    ensures { IfOk result (λ v. v.items ≡ envs.now) }
{
    let mut copies = Vec::new(alloc);
    for env in envs {
        copies.push(env.copy(alloc)?)?;
    }
    Ok(copies)
}

/// The same state again.
pub fn copy<'a>(alloc: Global, state: &State<'a>) -> Result<State<'a>, AllocError>
    ensures { IfOk result (λ s. state_of s ≡ state_of state.now) }
{
    Ok(State {
        facts: Vec::from_slice(alloc, state.facts.as_slice())?,
        next: state.next,
        imposed: Vec::from_slice(alloc, state.imposed.as_slice())?,
        envs: copy_envs(alloc, state.envs.as_slice())?,
        choices: Vec::from_slice(alloc, state.choices.as_slice())?,
        agenda: Vec::from_slice(alloc, state.agenda.as_slice())?,
        rest: Vec::from_slice(alloc, state.rest.as_slice())?,
    })
}

/// The node that the variable with this slot is bound to, in the environment with this number.
pub fn bound(envs: &[Environment], env: usize, slot: usize) -> Option<usize>
    ensures { result ≡ bound envs.now env slot }
{
    if env < envs.len() {
        let nodes = envs[env].as_slice();
        if slot < nodes.len() {
            nodes[slot]
        } else {
            None
        }
    } else {
        None
    }
}

/// Binds the variable with this slot to the node, in the environment with this number.
pub fn bind(alloc: Global, envs: &mut Vec<Environment>, env: usize, slot: usize, node: usize)
    requires env { env < length envs.now.items }
    requires slot { slot < length (env_at envs.now.items env) }
    ensures { envs.new.items ≡ slice_set envs.old.items env (slice_set (env_at envs.old.items env) slot (Some node)) }
{
    let mut nodes = std::mem::replace(&mut envs[env], Row::of(Vec::new(alloc))).into_vec();
    nodes[slot] = Some(node);
    envs[env] = Row::of(nodes);
}
