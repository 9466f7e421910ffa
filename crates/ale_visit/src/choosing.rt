//! Kids of which one is chosen: each but the last copies the state that they go on with.
ghost use Rattle.std.specs.Prelude.{◌≡◌, IfOk, map, ◌∷◌, []};
ghost use Rattle.ale_logic.specs.Descriptions.{description, descriptions_of};
ghost use Rattle.ale_logic.specs.DescriptionKids.{alternatives};
ghost use Rattle.ale_logic.specs.GoalKids.{goal_alternatives};
ghost use Rattle.ale_logic.specs.States.{doing, chosen, numbered};
ghost use Rattle.ale_program.specs.Goals.{goal_data, goals_of};
ghost use Rattle.ale_visit.specs.Views.{item_of, state_of, states_of};

use crate::items::{Demand, Item};
use crate::state::{State, choose, copy, doing};
use ale_logic::Desc;
use ale_program::Goal;
use std::alloc::{AllocError, Global};

/// One state alone, as the first kid.
pub fn only<'a>(alloc: Global, state: State<'a>) -> Result<Vec<State<'a>>, AllocError>
    ensures { IfOk result (λ v. states_of v.items ≡ numbered 0 (state_of state.entry ∷ [])) }
{
    let mut kids = Vec::new(alloc);
    kids.push(choose(state, 0)?)?;
    Ok(kids)
}

/// Two states, as the first kid and the second.
pub fn both<'a>(
    alloc: Global,
    first: State<'a>,
    second: State<'a>,
) -> Result<Vec<State<'a>>, AllocError>
    ensures { IfOk result (λ v. states_of v.items ≡ numbered 0 (state_of first.entry ∷ state_of second.entry ∷ [])) }
{
    let mut kids = Vec::new(alloc);
    kids.push(choose(first, 0)?)?;
    kids.push(choose(second, 1)?)?;
    Ok(kids)
}

/// The state, first with the item, as the kid with this number.
fn alternative<'a>(state: State<'a>, item: Item<'a>, number: usize) -> Result<State<'a>, AllocError>
    ensures { IfOk result (λ s. state_of s ≡ chosen number (doing (item_of item.entry) (state_of state.entry))) }
{
    let state = doing(state, item)?;
    choose(state, number)
}

/// A state for each of the descriptions at the node, in order and numbered. All but the last copy what they
/// go on with.
pub fn alternatives<'a>(
    alloc: Global,
    state: State<'a>,
    env: usize,
    node: usize,
    descs: &'a [Desc],
) -> Result<Vec<State<'a>>, AllocError>
    ensures { IfOk result (λ v. states_of v.items
        ≡ numbered 0 (alternatives env node (descriptions_of (map description descs.now)) (state_of state.entry))) }
{
    let mut kids = Vec::new(alloc);
    let Some((last, others)) = descs.split_last() else {
        return Ok(kids);
    };
    for (number, desc) in others.iter().enumerate() {
        let item = Item::On(node, Demand::Holds(env, desc));
        let kid = alternative(copy(alloc, &state)?, item, number)?;
        kids.push(kid)?;
    }
    let item = Item::On(node, Demand::Holds(env, last));
    let kid = alternative(state, item, others.len())?;
    kids.push(kid)?;
    Ok(kids)
}

/// A state for each of the goals, in order and numbered. All but the last copy what they go on with.
pub fn goal_alternatives<'a>(
    alloc: Global,
    state: State<'a>,
    env: usize,
    cut: usize,
    goals: &'a [Goal],
) -> Result<Vec<State<'a>>, AllocError>
    ensures { IfOk result (λ v. states_of v.items
        ≡ numbered 0 (goal_alternatives env cut (goals_of (map goal_data goals.now)) (state_of state.entry))) }
{
    let mut kids = Vec::new(alloc);
    let Some((last, others)) = goals.split_last() else {
        return Ok(kids);
    };
    for (number, goal) in others.iter().enumerate() {
        let kid = alternative(copy(alloc, &state)?, Item::Derive(env, cut, goal), number)?;
        kids.push(kid)?;
    }
    let kid = alternative(state, Item::Derive(env, cut, last), others.len())?;
    kids.push(kid)?;
    Ok(kids)
}
