ghost use Rattle.std.specs.Prelude.{◌≡◌, ◌++◌, OnOk, IfOk, map};
ghost use Rattle.ale_logic.specs.Descriptions.{description, descriptions_of};
ghost use Rattle.ale_logic.specs.DescriptionKids.{items_at};
ghost use Rattle.ale_logic.specs.States.{told, chosen, bound};
ghost use Rattle.ale_logic.specs.Starts.{start};
ghost use Rattle.ale_search.specs.Views.{agenda_of, rest_of, state_of};

use ale_graph::{Closed, Fact};
use ale_logic::Desc;
use ale_signature::{FeatId, Row};
use std::alloc::{AllocError, Global};

/// What is demanded of a node.
#[derive(Clone, Copy)]
pub enum Demand<'a> {
    /// The description holds at it, in the environment with this number.
    Holds(usize, &'a Desc),
    /// The path from it, and the other path from the other node, end at one node.
    EndsWith(&'a [FeatId], usize, &'a [FeatId]),
    /// The path from it ends at the other node.
    Leads(&'a [FeatId], usize),
}

/// What is still to be done.
#[derive(Clone, Copy)]
pub enum Item<'a> {
    /// The demand of the node.
    On(usize, Demand<'a>),
    /// The demand of the value of the node by the feature.
    Take(usize, &'a FeatId, Demand<'a>),
}

/// The node of each slot whose variable is bound.
pub type Environment = Row<Option<usize>>;

/// The facts so far about the nodes below `next`, the environments, the number of the kid at each state
/// before, and the agenda, whose first item stands last.
#[derive(Drop)]
pub struct State<'a> {
    pub facts: Vec<Fact>,
    pub next: usize,
    pub envs: Vec<Environment>,
    pub choices: Vec<usize>,
    pub agenda: Vec<Item<'a>>,
}

/// What a visited state goes on with: its closure, and all else of it, with the agenda behind its first item.
#[derive(Drop)]
pub struct Rest<'a> {
    pub closed: Closed,
    pub envs: Vec<Environment>,
    pub choices: Vec<usize>,
    pub agenda: Vec<Item<'a>>,
}

/// The state at its closure.
pub fn going<'a>(rest: Rest<'a>) -> State<'a>
    ensures { state_of result ≡ rest_of rest.entry }
{
    let Rest {
        closed,
        envs,
        choices,
        agenda,
    } = rest;
    let next = closed.next;
    State {
        facts: closed.facts.into_vec(),
        next,
        envs,
        choices,
        agenda,
    }
}

/// The state at its closure, with one more fact.
pub fn telling<'a>(rest: Rest<'a>, fact: Fact) -> Result<State<'a>, AllocError>
    ensures { IfOk result (λ s. state_of s ≡ told fact (rest_of rest.entry)) }
{
    let Rest {
        closed,
        envs,
        choices,
        agenda,
    } = rest;
    let next = closed.next;
    let mut facts = closed.facts.into_vec();
    facts.push(fact)?;
    Ok(State {
        facts,
        next,
        envs,
        choices,
        agenda,
    })
}

/// The state as the kid with this number.
pub fn choose<'a>(mut state: State<'a>, number: usize) -> Result<State<'a>, AllocError>
    ensures { IfOk result (λ s. state_of s ≡ chosen number (state_of state.entry)) }
{
    state.choices.push(number)?;
    Ok(state)
}

/// The node that the variable with this slot is bound to, in the environment with this number.
pub fn bound(envs: &[Environment], env: usize, slot: usize) -> Option<usize>
    ensures { result ≡ bound envs.now env slot }
{
    if env < envs.len() {
        let nodes = envs[env].as_slice();
        if slot < nodes.len() {
            nodes[slot]
        } else {
            None
        }
    } else {
        None
    }
}

/// Puts each of the descriptions at the node before what is there.
pub fn push_all<'a>(
    agenda: &mut Vec<Item<'a>>,
    env: usize,
    node: usize,
    descs: &'a [Desc],
) -> Result<(), AllocError>
    ensures { OnOk result (agenda_of agenda.new.items
        ≡ items_at env node (descriptions_of (map description descs.now)) ++ agenda_of agenda.old.items) }
{
    let mut left = descs.len();
    while left > 0 {
        left -= 1;
        agenda.push(Item::On(node, Demand::Holds(env, &descs[left])))?;
    }
    Ok(())
}

/// The state with which a search for the description begins: node 0, at which it is to hold, with so many
/// variables.
pub fn start<'a>(alloc: Global, desc: &'a Desc, slots: usize) -> Result<State<'a>, AllocError>
    ensures { IfOk result (λ s. state_of s ≡ start slots (description desc.now)) }
{
    let mut agenda = Vec::new(alloc);
    agenda.push(Item::On(0, Demand::Holds(0, desc)))?;
    let mut envs = Vec::new(alloc);
    envs.push(Row::of(vec![in alloc; None; slots]?))?;
    Ok(State {
        facts: Vec::new(alloc),
        next: 1,
        envs,
        choices: Vec::new(alloc),
        agenda,
    })
}
