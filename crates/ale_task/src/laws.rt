ghost use Rattle.ale_task.specs.Laws.{TaskLaws, MarkLaws, ShownLaws, TextsLaws};

use ale_print::{texts_tell, visible_texts};
use ale_reply_law::{marks_law, reply_law};
use ale_run_law::{description_law, goal_law, run_law};

/// What the reply to each command means. Of an accepted program inside the fragment: each answer is a solution, and the
/// visible part of one is shown; at the end of a search each solution is subsumed by an answer; what an answer
/// subsumes is a solution; and without disjunction and constraints two visits for each part of a description, and two to
/// spare, are enough. Of every program: a reply is marked unfinished exactly where its search needs more visits than
/// the budget, and with a larger budget the search goes on from there. Source: most general satisfiers, Carpenter 1992,
/// chapters 4, 14 and 15.
pub fn task_law()
    ensures meaning { TaskLaws }
    ensures marks { MarkLaws }
{
    reply_law();
    marks_law();
    description_law();
    goal_law();
    run_law();
}

/// What is shown of each answer of a command that fits its program is a total, extensional structure, also of programs with
/// cut, negation and if-then.
pub fn shown_law()
    ensures { ShownLaws }
{
    run_law();
}

/// The text of an answer is that of its visible part, and fixes it up to the numbers of nodes, where memory can hold it.
pub fn texts_law()
    ensures { TextsLaws }
{
    run_law();
    texts_tell();
    visible_texts();
}
