//! How the states that wait are visited.
ghost use Rattle.std.specs.Prelude.{◌≡◌, ◌≤◌, ◌++◌, IfOk, OnOk};
ghost use Rattle.ale_engine.specs.Engine.{next_answer};
ghost use Rattle.ale_logic.specs.Runs.{AreStates};
ghost use Rattle.ale_logic.specs.Visits.{visit};
ghost use Rattle.ale_visit.specs.Views.{grammar, state_of, states_of};
ghost use Rattle.ale_search.specs.Searches.{halt_of, waits_in, left_in};
ghost use Rattle.ale_search.specs.Waiting.{waiting_of};

use crate::answers::{Next, tell};
use ale_program::Program;
use ale_step_law::step_law;
use ale_visit::{State, Visited, visit};
use std::alloc::{AllocError, Global};

/// Puts the states before those that wait, in order.
fn put_first<'a>(waiting: &mut Vec<State<'a>>, mut states: Vec<State<'a>>) -> Result<(), AllocError>
    ensures { OnOk result (waiting_of waiting.new.items ≡ states_of states.entry.items ++ waiting_of waiting.old.items) }
{
    while let Some(state) = states.pop() {
        waiting.push(state)?;
    }
    Ok(())
}

/// Visits what waits, until there is an answer, nothing waits any more, or no visit is left.
pub fn advance<'a>(
    alloc: Global,
    program: &'a Program,
    waiting: &mut Vec<State<'a>>,
    left: &mut u64,
) -> Result<Next, AllocError>
    requires { AreStates (grammar program.now) (waiting_of waiting.now.items) }
    ensures halts { IfOk result (λ n. n ≡ halt_of (next_answer (visit (grammar program.now)) left.old (waiting_of waiting.old.items))) }
    ensures waits { OnOk result (waiting_of waiting.new.items
        ≡ waits_in (next_answer (visit (grammar program.now)) left.old (waiting_of waiting.old.items))) }
    ensures left { OnOk result (left.new ≡ left_in (next_answer (visit (grammar program.now)) left.old (waiting_of waiting.old.items))) }
    ensures states { OnOk result (AreStates (grammar program.now) (waiting_of waiting.new.items)) }
    ensures no_more { left.new ≤ left.old }
{
    step_law();
    program.program_law();
    while *left > 0 {
        let Some(state) = waiting.pop() else {
            return Ok(Next::Ended);
        };
        *left -= 1;
        match visit(alloc, program, waiting.len(), state)? {
            Visited::Answers(closed, state) => {
                return Ok(Next::Found(tell(alloc, closed, state)));
            }
            Visited::Goes(stay, states) => {
                waiting.truncate(stay);
                put_first(waiting, states)?;
            }
        }
    }
    if waiting.is_empty() {
        return Ok(Next::Ended);
    }
    Ok(Next::Spent)
}
