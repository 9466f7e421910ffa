ghost use Rattle.std.specs.Prelude.{◌≡◌, ◌<◌, IfOk, length, Some};
ghost use Rattle.std.specs.Prelude.{slice_set};
ghost use Rattle.ale_hierarchy.specs.Order.{hierarchy};
ghost use Rattle.ale_logic.specs.Descriptions.{FitsPath, description};
ghost use Rattle.ale_logic.specs.States.{env_at, bound};
ghost use Rattle.ale_logic.specs.DescriptionKids.{stepping, leading, equating_paths, binding, differing};
ghost use Rattle.ale_search.specs.Views.{demand_of, rest_of, state_of};

use crate::state::{Demand, Environment, Item, Rest, State, bound, going, telling};
use ale_graph::Fact;
use ale_logic::Desc;
use ale_signature::{FeatId, Row, Signature};
use std::alloc::{AllocError, Global};

/// The state in which the node is told to have the feature, and then its value is taken.
#[tactic(auto, using(crate::proofs::Turned::turned_push), unfolding(ale_hierarchy::specs::Order::hierarchy))]
pub fn stepping<'a>(
    sig: &Signature,
    mut rest: Rest<'a>,
    node: usize,
    feature: &'a FeatId,
    demand: Demand<'a>,
) -> Result<State<'a>, AllocError>
    requires { feature.now < (hierarchy sig.now).features }
    ensures { IfOk result (λ s. state_of s ≡ stepping (hierarchy sig.now) node feature.now (demand_of demand.entry) (rest_of rest.entry)) }
{
    rest.agenda.push(Item::Take(node, feature, demand))?;
    let least = sig.intro(*feature);
    telling(rest, Fact::OfType(node, least))
}

/// The state that goes on where the path from the first node is to end at the other.
pub fn leading<'a>(
    sig: &Signature,
    rest: Rest<'a>,
    node: usize,
    path: &'a [FeatId],
    end: usize,
) -> Result<State<'a>, AllocError>
    requires { FitsPath (hierarchy sig.now) path.now }
    ensures { IfOk result (λ s. state_of s ≡ leading (hierarchy sig.now) node path.now end (rest_of rest.entry)) }
{
    match path {
        [] => telling(rest, Fact::Same(end, node)),
        [feature, path @ ..] => stepping(sig, rest, node, feature, Demand::Leads(path, end)),
    }
}

/// The state that goes on where the path from the node and the other path from the other node are to end
/// at one node.
pub fn equating_paths<'a>(
    sig: &Signature,
    rest: Rest<'a>,
    node: usize,
    path: &'a [FeatId],
    other: usize,
    other_path: &'a [FeatId],
) -> Result<State<'a>, AllocError>
    requires path { FitsPath (hierarchy sig.now) path.now }
    requires other_path { FitsPath (hierarchy sig.now) other_path.now }
    ensures { IfOk result (λ s. state_of s ≡ equating_paths (hierarchy sig.now) node path.now other other_path.now (rest_of rest.entry)) }
{
    match path {
        [] => leading(sig, rest, other, other_path, node),
        [feature, path @ ..] => stepping(
            sig,
            rest,
            node,
            feature,
            Demand::EndsWith(path, other, other_path),
        ),
    }
}

/// Binds the variable with this slot to the node, in the environment with this number.
fn bind(alloc: Global, envs: &mut Vec<Environment>, env: usize, slot: usize, node: usize)
    requires env { env < length envs.now.items }
    requires slot { slot < length (env_at envs.now.items env) }
    ensures { envs.new.items ≡ slice_set envs.old.items env (slice_set (env_at envs.old.items env) slot (Some node)) }
{
    let mut nodes = std::mem::replace(&mut envs[env], Row::of(Vec::new(alloc))).into_vec();
    nodes[slot] = Some(node);
    envs[env] = Row::of(nodes);
}

/// The state that goes on where the variable with this slot, in the environment with this number, is to
/// stand for the node.
pub fn binding<'a>(
    alloc: Global,
    mut rest: Rest<'a>,
    env: usize,
    slot: usize,
    node: usize,
) -> Result<State<'a>, AllocError>
    requires env { env < length rest.envs.items }
    requires slot { slot < length (env_at rest.envs.items env) }
    ensures { IfOk result (λ s. state_of s ≡ binding env slot node (bound rest.entry.envs.items env slot) (rest_of rest.entry)) }
{
    match bound(rest.envs.as_slice(), env, slot) {
        None => {
            bind(alloc, &mut rest.envs, env, slot, node);
            Ok(going(rest))
        }
        Some(other) => telling(rest, Fact::Same(node, other)),
    }
}

/// The state that goes on where the description is to hold at a new node, which differs from this one.
#[tactic(auto, using(crate::proofs::Turned::turned_push))]
pub fn differing<'a>(
    mut rest: Rest<'a>,
    env: usize,
    node: usize,
    desc: &'a Desc,
) -> Result<State<'a>, AllocError>
    ensures { IfOk result (λ s. state_of s ≡ differing env node (description desc.now) (rest_of rest.entry)) }
{
    let other = rest.closed.next;
    let Some(next) = other.checked_add(1) else {
        return Err(AllocError);
    };
    rest.agenda.push(Item::On(other, Demand::Holds(env, desc)))?;
    let mut state = telling(rest, Fact::Differ(node, other))?;
    state.next = next;
    Ok(state)
}
