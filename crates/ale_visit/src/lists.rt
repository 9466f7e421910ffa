//! How a search goes on at an open list.
ghost use Rattle.std.specs.Prelude.{◌≡◌, IfOk};
ghost use Rattle.ale_logic.specs.States.{numbered};
ghost use Rattle.ale_logic.specs.GenerationKids.{ending, split_kids};
ghost use Rattle.ale_list.specs.Lists.{lists_in};
ghost use Rattle.ale_visit.specs.Views.{end_of, state_of, states_of};

use crate::choosing::both;
use crate::items::{Demand, End, Item};
use crate::state::{State, copy, doing, remaining, telling};
use ale_graph::Fact;
use ale_list::list_types;
use ale_signature::Signature;
use std::alloc::{AllocError, Global};

/// The state in which what holds at the end of a list is to hold, where anything does.
fn ending<'a>(state: State<'a>, end: Option<End<'a>>) -> Result<State<'a>, AllocError>
    ensures { IfOk result (λ s. state_of s ≡ ending (end_of end.entry) (state_of state.entry)) }
{
    match end {
        None => Ok(state),
        Some(end) => doing(state, Item::On(end.node, Demand::Holds(0, end.desc))),
    }
}

/// The states that come in place of one whose first item is an open list: it ends, or has a member, which is the next
/// element.
pub fn split<'a>(
    alloc: Global,
    sig: &Signature,
    state: State<'a>,
    node: usize,
    end: Option<End<'a>>,
) -> Result<Vec<State<'a>>, AllocError>
    ensures { IfOk result (λ v. states_of v.items
        ≡ numbered 0 (split_kids (lists_in sig.now) node (end_of end.entry) (state_of state.entry))) }
{
    let Some(lists) = list_types(sig) else {
        return Ok(Vec::new(alloc));
    };
    let ended = ending(copy(alloc, &state)?, end)?;
    let ended = telling(ended, Fact::OfType(node, lists.e_list))?;
    let open = remaining(state, node)?;
    let open = telling(open, Fact::OfType(node, lists.ne_list))?;
    both(alloc, ended, open)
}
