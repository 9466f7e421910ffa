//! Goals.
ghost use Rattle.std.specs.Prelude.{◌↔◌, IsTrue};
ghost use Rattle.ale_logic.specs.Goals.{IsPlain};
ghost use Rattle.ale_program.specs.Goals.{goal_data};

use ale_logic::Desc;
use ale_text::Row;
use sqlite_items::{Boxed, Items};

/// What is to be derived.
#[derive(Debug, Drop)]
pub enum Goal {
    /// It holds.
    Yes,
    /// The cut.
    Cut,
    /// Each of these.
    All(Items<Goal>),
    /// At least one of these.
    Any(Items<Goal>),
    /// Both descriptions hold at one node.
    Equal(Desc, Desc),
    /// The predicate with this number, of nodes at which the descriptions hold.
    Call(u32, Row<Desc>),
    /// It cannot be derived.
    Not(Boxed<Goal>),
    /// Where the first can be derived, the second, else the third.
    IfElse(Boxed<Goal>, Boxed<Goal>, Boxed<Goal>),
    /// Where the first can be derived, the second.
    Once(Boxed<Goal>, Boxed<Goal>),
}

impl Goal {
    /// Whether no cut, negation or if-then stands in it. It takes no memory.
    #[tactic(auto, using(crate::proofs::GoalRules::goal_rules))]
    pub fn in_fragment(&self) -> bool
        ensures { IsTrue result ↔ IsPlain (goal_data self.now) }
    {
        match self {
            Goal::Yes | Goal::Equal(_, _) | Goal::Call(_, _) => true,
            Goal::All(goals) | Goal::Any(goals) => {
                for goal in goals.as_slice() {
                    if !goal.in_fragment() {
                        return false;
                    }
                }
                true
            }
            Goal::Cut | Goal::Not(_) | Goal::IfElse(_, _, _) | Goal::Once(_, _) => false,
        }
    }
}
