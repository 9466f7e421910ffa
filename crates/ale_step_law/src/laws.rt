ghost use Rattle.ale_logic.specs.Steps.{StepLaws, LogicLaws};

use ale_graph::closure_law;

/// What each visit of a state does, whatever the program: its kids are states that have all of the state, with
/// words sought or found once for each phrase; an answer is the state with its closure, where each constraint
/// was imposed; and a model of the program that satisfies the state satisfies a kid, with the same elements
/// remaining, in a sense that goes on. Source: most general satisfiers, Carpenter 1992, chapters 4, 14 and 15.
pub fn step_law()
    ensures { StepLaws }
{
    closure_law();
}

/// What each visit does besides inside the fragment, without cut, negation and if-then: kids are inside it too,
/// a structure that satisfies a kid satisfies the state, what was imposed is met there or was brought by a word,
/// and no state that waits is dropped.
pub fn logic_law()
    ensures { LogicLaws }
{
    closure_law();
}
