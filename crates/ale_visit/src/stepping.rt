//! How a search goes on where a description, or what is left of one, is demanded of a node.
ghost use Rattle.std.specs.Prelude.{◌≡◌, ◌<◌, ◌++◌, IfOk, OnOk, length, map};
ghost use Rattle.ale_hierarchy.specs.Order.{hierarchy};
ghost use Rattle.ale_logic.specs.Descriptions.{FitsPath, description, descriptions_of};
ghost use Rattle.ale_logic.specs.States.{env_at, bound};
ghost use Rattle.ale_logic.specs.DescriptionKids.{stepping, leading, equating_paths, binding, differing, items_at};
ghost use Rattle.ale_visit.specs.Views.{demand_of, agenda_of, state_of};

use crate::items::{Demand, Item};
use crate::state::{State, bind, bound, doing, growing, telling};
use ale_graph::Fact;
use ale_logic::Desc;
use ale_signature::{FeatId, Signature};
use std::alloc::{AllocError, Global};

/// The state in which the node is told to have the feature, and then its value is taken.
#[tactic(auto, unfolding(ale_hierarchy::specs::Order::hierarchy))]
pub fn stepping<'a>(
    sig: &Signature,
    state: State<'a>,
    node: usize,
    feature: &'a FeatId,
    demand: Demand<'a>,
) -> Result<State<'a>, AllocError>
    requires { feature.now < (hierarchy sig.now).features }
    ensures { IfOk result (λ s. state_of s ≡ stepping (hierarchy sig.now) node feature.now (demand_of demand.entry) (state_of state.entry)) }
{
    let least = sig.intro(*feature);
    let state = telling(state, Fact::OfType(node, least))?;
    doing(state, Item::Take(node, feature, demand))
}

/// The state that goes on where the path from the first node is to end at the other.
pub fn leading<'a>(
    sig: &Signature,
    state: State<'a>,
    node: usize,
    path: &'a [FeatId],
    end: usize,
) -> Result<State<'a>, AllocError>
    requires { FitsPath (hierarchy sig.now) path.now }
    ensures { IfOk result (λ s. state_of s ≡ leading (hierarchy sig.now) node path.now end (state_of state.entry)) }
{
    match path {
        [] => telling(state, Fact::Same(end, node)),
        [feature, path @ ..] => stepping(sig, state, node, feature, Demand::Leads(path, end)),
    }
}

/// The state that goes on where the path from the node and the other path from the other node are to end
/// at one node.
pub fn equating_paths<'a>(
    sig: &Signature,
    state: State<'a>,
    node: usize,
    path: &'a [FeatId],
    other: usize,
    other_path: &'a [FeatId],
) -> Result<State<'a>, AllocError>
    requires path { FitsPath (hierarchy sig.now) path.now }
    requires other_path { FitsPath (hierarchy sig.now) other_path.now }
    ensures { IfOk result (λ s. state_of s ≡ equating_paths (hierarchy sig.now) node path.now other other_path.now (state_of state.entry)) }
{
    match path {
        [] => leading(sig, state, other, other_path, node),
        [feature, path @ ..] => stepping(
            sig,
            state,
            node,
            feature,
            Demand::EndsWith(path, other, other_path),
        ),
    }
}

/// The state that goes on where the variable with this slot, in the environment with this number, is to
/// stand for the node.
pub fn binding<'a>(
    alloc: Global,
    mut state: State<'a>,
    env: usize,
    slot: usize,
    node: usize,
) -> Result<State<'a>, AllocError>
    requires env { env < length state.envs.items }
    requires slot { slot < length (env_at state.envs.items env) }
    ensures { IfOk result (λ s. state_of s ≡ binding env slot node (bound state.entry.envs.items env slot) (state_of state.entry)) }
{
    match bound(state.envs.as_slice(), env, slot) {
        None => {
            bind(alloc, &mut state.envs, env, slot, node);
            Ok(state)
        }
        Some(other) => telling(state, Fact::Same(node, other)),
    }
}

/// The state that goes on where the description is to hold at a new node, which differs from this one.
pub fn differing<'a>(
    state: State<'a>,
    env: usize,
    node: usize,
    desc: &'a Desc,
) -> Result<State<'a>, AllocError>
    ensures { IfOk result (λ s. state_of s ≡ differing env node (description desc.now) (state_of state.entry)) }
{
    let other = state.next;
    let state = growing(state, 1)?;
    let state = doing(state, Item::On(other, Demand::Holds(env, desc)))?;
    telling(state, Fact::Differ(node, other))
}

/// Puts each of the descriptions at the node before what is there.
pub fn push_all<'a>(
    agenda: &mut Vec<Item<'a>>,
    env: usize,
    node: usize,
    descs: &'a [Desc],
) -> Result<(), AllocError>
    ensures { OnOk result (agenda_of agenda.new.items
        ≡ items_at env node (descriptions_of (map description descs.now)) ++ agenda_of agenda.old.items) }
{
    let mut left = descs.len();
    while left > 0 {
        left -= 1;
        agenda.push(Item::On(node, Demand::Holds(env, &descs[left])))?;
    }
    Ok(())
}
