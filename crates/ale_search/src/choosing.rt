ghost use Rattle.std.specs.Prelude.{◌≡◌, IfOk, map, ◌∷◌};
ghost use Rattle.ale_logic.specs.Descriptions.{description, descriptions_of};
ghost use Rattle.ale_logic.specs.DescriptionKids.{alternatives};
ghost use Rattle.ale_logic.specs.States.{holds, on, doing, chosen, numbered};
ghost use Rattle.ale_search.specs.Views.{state_of, states_of};

use crate::state::{Demand, Environment, Item, State, choose};
use ale_logic::Desc;
use std::alloc::{AllocError, Global};

/// The environments again.
fn copy_envs(alloc: Global, envs: &[Environment]) -> Result<Vec<Environment>, AllocError>
    ensures { IfOk result (λ v. v.items ≡ envs.now) }
{
    let mut copies = Vec::new(alloc);
    for env in envs {
        copies.push(env.copy(alloc)?)?;
    }
    Ok(copies)
}

/// The state, first with the description at the node, as the kid with this number.
#[tactic(auto, using(crate::proofs::Turned::turned_push))]
fn alternative<'a>(
    mut state: State<'a>,
    env: usize,
    node: usize,
    desc: &'a Desc,
    number: usize,
) -> Result<State<'a>, AllocError>
    ensures { IfOk result (λ s. state_of s ≡ chosen number (doing (on node (holds env (description desc.now))) (state_of state.entry))) }
{
    state.agenda.push(Item::On(node, Demand::Holds(env, desc)))?;
    choose(state, number)
}

/// The same state again.
fn copy<'a>(alloc: Global, state: &State<'a>) -> Result<State<'a>, AllocError>
    ensures { IfOk result (λ s. state_of s ≡ state_of state.now) }
{
    Ok(State {
        facts: Vec::from_slice(alloc, state.facts.as_slice())?,
        next: state.next,
        envs: copy_envs(alloc, state.envs.as_slice())?,
        choices: Vec::from_slice(alloc, state.choices.as_slice())?,
        agenda: Vec::from_slice(alloc, state.agenda.as_slice())?,
    })
}

/// A state for each of the descriptions at the node, in order and numbered. All but the last copy what they
/// go on with.
pub fn alternatives<'a>(
    alloc: Global,
    state: State<'a>,
    env: usize,
    node: usize,
    descs: &'a [Desc],
) -> Result<Vec<State<'a>>, AllocError>
    ensures { IfOk result (λ v. states_of v.items
        ≡ numbered 0 (alternatives env node (descriptions_of (map description descs.now)) (state_of state.entry))) }
{
    let mut kids = Vec::new(alloc);
    let Some((last, others)) = descs.split_last() else {
        return Ok(kids);
    };
    for (number, desc) in others.iter().enumerate() {
        let kid = alternative(copy(alloc, &state)?, env, node, desc, number)?;
        kids.push(kid)?;
    }
    let kid = alternative(state, env, node, last, others.len())?;
    kids.push(kid)?;
    Ok(kids)
}
