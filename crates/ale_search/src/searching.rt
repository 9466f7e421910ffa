//! Searches that stop at each answer.
use crate::advancing::advance;
use crate::answers::Next;
use crate::starting::{start, start_goal};
use ale_logic::Desc;
use ale_program::{Goal, Program};
use ale_visit::State;
use std::alloc::{AllocError, Global};
use std::marker::Model;

/// A search over a program: the states that wait, of which the last is visited first, and whether memory ran out.
#[derive(Drop)]
pub struct Search<'a> {
    program: &'a Program,
    waiting: Vec<State<'a>>,
    failed: bool,
}

impl<'a> Model for Search<'a> {
    ghost use Rattle.std.specs.Coded.{codes};
    ghost use Rattle.ale_logic.specs.contracts.desc.Desc as desc;
    ghost use Rattle.ale_program.specs.contracts.goal.Goal as goal;
    ghost use Rattle.ale_search.specs.Waiting.{Waits, KeepsStates};

    ghost Value = { Waits };

    ghost coded = { Prim.hlevel (codes, desc.the_row.coded, goal.the_row.coded) };

    ghost view = { λ s. record { program = s.program.now; waiting = s.waiting.items; failed = s.failed } };

    ghost invariant = { λ s. KeepsStates s.program.now s.waiting.items s.failed };
}

impl<'a> Search<'a> {
    ghost use Rattle.std.specs.Prelude.{◌≡◌, ◌≤◌, true, IfOk, OnOk, OnErr, IsErr, [], ◌∷◌};
    ghost use Rattle.ale_hierarchy.specs.Order.{hierarchy};
    ghost use Rattle.ale_logic.specs.Descriptions.{description, FitsDescription};
    ghost use Rattle.ale_logic.specs.Goals.{FitsGoal};
    ghost use Rattle.ale_logic.specs.Starts.{start, start_goal};
    ghost use Rattle.ale_program.specs.Goals.{goal_data};
    ghost use Rattle.ale_search.specs.Searches.{told_search, has_failed, halt_of, waits_in, left_in, halted};

    /// A search for what satisfies the description, whose variables have slots below `slots`.
    pub fn start_desc(
        alloc: Global,
        program: &'a Program,
        desc: &'a Desc,
        slots: usize,
    ) -> Result<Search<'a>, AllocError>
        requires { FitsDescription (hierarchy program.now.signature) slots (description desc.now) }
        ensures { IfOk result (λ s. told_search s ≡ record { program = program.now; waiting = start slots (description desc.now) ∷ [] }) }
    {
        let mut waiting = Vec::new(alloc);
        waiting.push(start(alloc, desc, slots)?)?;
        Ok(Search {
            program,
            waiting,
            failed: false,
        })
    }

    /// A search for what derives the goal, whose variables have slots below `slots`.
    pub fn start_goal(
        alloc: Global,
        program: &'a Program,
        goal: &'a Goal,
        slots: usize,
    ) -> Result<Search<'a>, AllocError>
        requires { FitsGoal (hierarchy program.now.signature) slots (goal_data goal.now) }
        ensures { IfOk result (λ s. told_search s ≡ record { program = program.now; waiting = start_goal slots (goal_data goal.now) ∷ [] }) }
    {
        let mut waiting = Vec::new(alloc);
        waiting.push(start_goal(alloc, goal, slots)?)?;
        Ok(Search {
            program,
            waiting,
            failed: false,
        })
    }

    /// Goes on to the next answer, or to the end of the search, with at most `left` visits, each of which lowers `left` by
    /// one. Where no visit is left and something waits it is `Spent`, and can be called again with more. The only error
    /// is out of memory; what waits is lost then, and each later call gives that error.
    pub fn next(&mut self, alloc: Global, left: &mut u64) -> Result<Next, AllocError>
        ensures halts { IfOk result (λ n. n ≡ halt_of (halted (told_search self.old) left.old)) }
        ensures waits { OnOk result ((told_search self.new).waiting ≡ waits_in (halted (told_search self.old) left.old)) }
        ensures left { OnOk result (left.new ≡ left_in (halted (told_search self.old) left.old)) }
        ensures program { (told_search self.new).program ≡ (told_search self.old).program }
        ensures no_more { left.new ≤ left.old }
        ensures fails { OnErr result (has_failed self.new ≡ true) }
        ensures failed { has_failed self.old ≡ true → IsErr result }
    {
        if self.failed {
            return Err(AllocError);
        }
        self.failed = true;
        let next = advance(alloc, self.program, &mut self.waiting, left)?;
        self.failed = false;
        Ok(next)
    }
}
