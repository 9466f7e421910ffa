ghost use Rattle.std.specs.Prelude.{◌≡◌, ◌<◌, IfOk, OnOk, [], ◌∷◌, ◌++◌};
ghost use Rattle.ale_hierarchy.specs.Order.{hierarchy};
ghost use Rattle.ale_logic.specs.Descriptions.{description, FitsDescription};
ghost use Rattle.ale_search.specs.Views.{seen, state_of, states_of, waiting_of};
ghost use Rattle.ale_search.specs.Outcomes.{found, outcome_of};

use crate::state::{State, start};
use crate::visiting::{Visited, visit};
use ale_graph::Closed;
use ale_logic::{Answer, Desc};
use ale_signature::{Row, Signature};
use ale_step_law::step_law;
use std::alloc::{AllocError, Global};

/// The answers of a search in order, how many visits it made, and whether no state waits any more.
#[derive(Debug, Drop)]
pub struct Found {
    pub answers: Row<Answer>,
    pub visits: u64,
    pub finished: bool,
}

/// Puts the states before those that wait, in order.
fn put_before<'a>(
    waiting: &mut Vec<State<'a>>,
    mut states: Vec<State<'a>>,
) -> Result<(), AllocError>
    ensures { OnOk result (waiting_of waiting.new.items ≡ states_of states.entry.items ++ waiting_of waiting.old.items) }
{
    while let Some(state) = states.pop() {
        waiting.push(state)?;
    }
    Ok(())
}

/// What is told of an answer: its closure, and its first environment.
fn answer<'a>(alloc: Global, closed: Closed, state: State<'a>) -> Answer
    ensures { result ≡ seen closed (state_of state.entry) }
{
    let State { mut envs, .. } = state;
    let env = if envs.is_empty() {
        Row::of(Vec::new(alloc))
    } else {
        envs.swap_remove(0)
    };
    Answer { closed, env }
}

/// Searches for what satisfies the description, whose variables have slots below `slots`, with at most so
/// many visits.
pub fn find(
    alloc: Global,
    sig: &Signature,
    desc: &Desc,
    slots: usize,
    budget: u64,
) -> Result<Found, AllocError>
    requires { FitsDescription (hierarchy sig.now) slots (description desc.now) }
    ensures { IfOk result (λ f. outcome_of f ≡ found (hierarchy sig.now) budget slots (description desc.now)) }
{
    step_law();
    let _ = sig.type_count();
    let mut waiting = Vec::new(alloc);
    waiting.push(start(alloc, desc, slots)?)?;
    let mut answers = Vec::new(alloc);
    let mut visits = 0;
    while visits < budget {
        let Some(state) = waiting.pop() else {
            return Ok(Found {
                answers: Row::of(answers),
                visits,
                finished: true,
            });
        };
        visits += 1;
        match visit(alloc, sig, waiting.len(), state)? {
            Visited::Answers(closed, state) => answers.push(answer(alloc, closed, state))?,
            Visited::Goes(stay, states) => {
                waiting.truncate(stay);
                put_before(&mut waiting, states)?;
            }
        }
    }
    Ok(Found {
        answers: Row::of(answers),
        visits,
        finished: waiting.is_empty(),
    })
}
