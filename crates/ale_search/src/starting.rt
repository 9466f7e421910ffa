//! The states with which searches start.
ghost use Rattle.std.specs.Prelude.{◌≡◌, IfOk};
ghost use Rattle.ale_logic.specs.Descriptions.{description};
ghost use Rattle.ale_logic.specs.Starts.{start, start_goal};
ghost use Rattle.ale_logic.specs.States.{doing};
ghost use Rattle.ale_logic.specs.Starts.{start_with};
ghost use Rattle.ale_program.specs.Goals.{goal_data};
ghost use Rattle.ale_visit.specs.Views.{item_of, state_of};

use ale_logic::Desc;
use ale_program::Goal;
use ale_signature::Row;
use ale_visit::{Demand, Item, State};
use std::alloc::{AllocError, Global};

/// Node 0 alone, with so many variables, none of which is bound, and the item.
fn start_doing<'a>(alloc: Global, slots: usize, item: Item<'a>) -> Result<State<'a>, AllocError>
    ensures { IfOk result (λ s. state_of s ≡ doing (item_of item.entry) (start_with slots)) }
{
    let mut agenda = Vec::new(alloc);
    agenda.push(item)?;
    let mut envs = Vec::new(alloc);
    envs.push(Row::of(vec![in alloc; None; slots]?))?;
    Ok(State {
        facts: Vec::new(alloc),
        next: 1,
        imposed: Vec::new(alloc),
        envs,
        choices: Vec::new(alloc),
        agenda,
        rest: Vec::new(alloc),
    })
}

/// The description is to hold at node 0.
pub fn start<'a>(alloc: Global, desc: &'a Desc, slots: usize) -> Result<State<'a>, AllocError>
    ensures { IfOk result (λ s. state_of s ≡ start slots (description desc.now)) }
{
    start_doing(alloc, slots, Item::On(0, Demand::Holds(0, desc)))
}

/// The goal is to be derived; node 0 is hidden.
pub fn start_goal<'a>(alloc: Global, goal: &'a Goal, slots: usize) -> Result<State<'a>, AllocError>
    ensures { IfOk result (λ s. state_of s ≡ start_goal slots (goal_data goal.now)) }
{
    start_doing(alloc, slots, Item::Derive(0, 0, goal))
}
