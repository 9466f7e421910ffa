//! Constraints that are owed.
ghost use Rattle.std.specs.Prelude.{◌≡◌, ◌<◌, ◌&&◌, not, IfOk, map, option_map};
ghost use Rattle.ale_hierarchy.specs.Order.{hierarchy};
ghost use Rattle.ale_graph.specs.Closure.{class_of, node_of};
ghost use Rattle.ale_graph.specs.Structures.{type_of};
ghost use Rattle.ale_logic.specs.Visits.{is_imposed, owed_by, owed};
ghost use Rattle.ale_logic.specs.GoalKids.{doing_goal, with_constraint};
ghost use Rattle.ale_program.specs.Views.{constraint_data};
ghost use Rattle.ale_program.specs.Goals.{goal_data};
ghost use Rattle.ale_visit.specs.Views.{grammar, state_of};
ghost use Rattle.ale_visit.specs.Owing.{HaveTypes, GraphHasTypes, owed_of};

use crate::items::{Demand, Item};
use crate::state::{State, doing, imposing, with_env};
use ale_graph::Closed;
use ale_program::{Constraint, Goal, Program};
use ale_signature::{Signature, TypeId};
use std::alloc::{AllocError, Global};

/// A class, a constraint that it owes, and the number of this.
#[derive(Clone, Copy)]
pub struct Owed<'a> {
    pub class: usize,
    pub number: usize,
    pub constraint: &'a Constraint,
}

/// Whether the constraint with this number was imposed on a node of the class.
fn is_imposed(closed: &Closed, imposed: &[(usize, usize)], class: usize, number: usize) -> bool
    ensures { result ≡ is_imposed (class_of closed.now) imposed.now class number }
{
    for pair in imposed {
        if closed.class_of(pair.0) == class && pair.1 == number {
            return true;
        }
    }
    false
}

/// Whether the class, whose type is `of`, owes the constraint with this number.
#[tactic(auto, unfolding(ale_hierarchy::specs::Order::hierarchy))]
fn owes(
    sig: &Signature,
    closed: &Closed,
    imposed: &[(usize, usize)],
    class: usize,
    of: TypeId,
    constraint: &Constraint,
    number: usize,
) -> bool
    requires at { constraint.now.at < (hierarchy sig.now).types }
    requires of { of < (hierarchy sig.now).types }
    ensures { result ≡ (hierarchy sig.now).is_above constraint.now.at of && not (is_imposed (class_of closed.now) imposed.now class number) }
{
    sig.subsumes(constraint.at, of) && !is_imposed(closed, imposed, class, number)
}

/// The first of the constraints that the class owes, which is this node of the graph.
fn owed_by<'a>(
    sig: &Signature,
    constraints: &'a [Constraint],
    closed: &Closed,
    imposed: &[(usize, usize)],
    class: usize,
    node: usize,
) -> Option<Owed<'a>>
    requires constraints { HaveTypes (hierarchy sig.now) constraints.now }
    requires node { node ≡ node_of closed.now class }
    requires of { type_of closed.now.graph node < (hierarchy sig.now).types }
    ensures { owed_of result ≡ owed_by (hierarchy sig.now) closed.now imposed.now class 0 (map constraint_data constraints.now) }
{
    let of = closed.graph.type_of(node);
    for (number, constraint) in constraints.iter().enumerate() {
        if owes(sig, closed, imposed, class, of, constraint, number) {
            return Some(Owed {
                class,
                number,
                constraint,
            });
        }
    }
    None
}

/// The least class that owes a constraint, and the first constraint that it owes.
pub fn first_owed<'a>(
    program: &'a Program,
    closed: &Closed,
    imposed: &[(usize, usize)],
) -> Option<Owed<'a>>
    requires { GraphHasTypes (hierarchy program.now.signature) closed.now }
    ensures { owed_of result ≡ owed (grammar program.now) closed.now imposed.now }
{
    program.program_law();
    let sig = program.signature();
    let constraints = program.constraints();
    let mut node = 0;
    for class in 0..closed.next {
        if closed.class_of(class) != class {
            continue;
        }
        if let Some(found) = owed_by(sig, constraints, closed, imposed, class, node) {
            return Some(found);
        }
        node += 1;
    }
    None
}

/// The state in which the goal, where there is one, is to be derived, in the environment and with the cut height given.
fn doing_goal<'a>(
    state: State<'a>,
    env: usize,
    cut: usize,
    goal: &'a Option<Goal>,
) -> Result<State<'a>, AllocError>
    ensures { IfOk result (λ s. state_of s ≡ doing_goal env cut (option_map goal_data goal.now) (state_of state.entry)) }
{
    match goal {
        None => Ok(state),
        Some(goal) => doing(state, Item::Derive(env, cut, goal)),
    }
}

/// The state with the constraint imposed on the node, in a new environment: its description, then its goal.
pub fn with_constraint<'a>(
    alloc: Global,
    state: State<'a>,
    waiting: usize,
    node: usize,
    number: usize,
    constraint: &'a Constraint,
) -> Result<State<'a>, AllocError>
    ensures { IfOk result (λ s. state_of s ≡ with_constraint waiting node number (constraint_data constraint.now) (state_of state.entry)) }
{
    let env = state.envs.len();
    let state = with_env(alloc, state, constraint.slots)?;
    let state = imposing(state, node, number)?;
    let state = doing_goal(state, env, waiting, &constraint.goal)?;
    doing(state, Item::On(node, Demand::Holds(env, &constraint.desc)))
}
