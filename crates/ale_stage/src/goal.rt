//! Goals that are built.
ghost use Rattle.std.specs.Prelude.{◌≡◌};
ghost use Rattle.ale_term.specs.Goals.{goal_data};
ghost use Rattle.ale_stage.specs.Stages.{goal_is_built};

use crate::stage::since;
use crate::term::{are_built, is_built};
use ale_term::GoalTerm;

/// Whether the goal is made of forms that are built.
#[tactic(auto, using(ale_term::proofs::Terms::goal_rules))]
pub(crate) fn goal_is_built(goal: &GoalTerm) -> bool
    ensures { result ≡ goal_is_built (goal_data goal.now) }
{
    match goal {
        GoalTerm::Yes => since(5),
        GoalTerm::All(goals) | GoalTerm::Any(goals) => {
            for part in goals.as_slice() {
                if !goal_is_built(part) {
                    return false;
                }
            }
            since(5)
        }
        GoalTerm::Equal(left, right) => is_built(left) && is_built(right) && since(5),
        GoalTerm::Call(_, terms) => are_built(terms.as_slice()) && since(5),
        GoalTerm::Cut => since(11),
        GoalTerm::Not(inner) => goal_is_built(inner.get()) && since(11),
        GoalTerm::IfElse(condition, then, otherwise) => {
            goal_is_built(condition.get())
                && goal_is_built(then.get())
                && goal_is_built(otherwise.get())
                && since(11)
        }
        GoalTerm::Once(condition, then) => {
            goal_is_built(condition.get()) && goal_is_built(then.get()) && since(11)
        }
    }
}
