//! What is told of an answer, and of the way in which a search halts.
ghost use Rattle.std.specs.Prelude.{◌≡◌};
ghost use Rattle.ale_visit.specs.Views.{state_of};
ghost use Rattle.ale_search.specs.Told.{told};

use ale_graph::Closed;
use ale_signature::Row;
use ale_visit::State;
use std::alloc::Global;

/// An answer: its closure, each node on which a constraint was imposed with the constraint's number, the node of each
/// variable of the description or goal that is bound, the node of the closure's graph that the root is, and the number of the
/// kid at each state on the way to it.
#[derive(Debug, Drop)]
pub struct Answer {
    pub closed: Closed,
    pub imposed: Row<(usize, usize)>,
    pub env: Row<Option<usize>>,
    pub root: usize,
    pub choices: Row<usize>,
}

/// How a search halts.
#[derive(Debug, Drop)]
pub enum Next {
    /// At its next answer.
    Found(Answer),
    /// At its end: nothing waits.
    Ended,
    /// At the end of the budget, while something waits.
    Spent,
}

/// What is told of an answer.
pub fn tell<'a>(alloc: Global, closed: Closed, state: State<'a>) -> Answer
    ensures { result ≡ told (record { closed = closed; state = state_of state.entry }) }
{
    let root = closed.node_of(0);
    let State {
        imposed,
        mut envs,
        choices,
        ..
    } = state;
    let env = if envs.is_empty() {
        Row::of(Vec::new(alloc))
    } else {
        envs.swap_remove(0)
    };
    Answer {
        closed,
        imposed: Row::of(imposed),
        env,
        root,
        choices: Row::of(choices),
    }
}
