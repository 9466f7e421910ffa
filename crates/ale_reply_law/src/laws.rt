ghost use Rattle.ale_reply_law.specs.Marks.{MarksLaws};
ghost use Rattle.ale_reply_law.specs.Replies.{ReplyLaws, WholeReplyLaws};

use ale_graph::closure_law;
use ale_morphism::visible_laws;

/// What the reply to each kind of command has to do with the command's solutions, for an accepted program inside
/// the fragment, whatever is kept of answers and whichever items of a chart are kept: each answer is the visible
/// part of a solution, root for root and with its words; where the reply is complete, each solution is subsumed
/// by an answer, root to root and with the same words. Where all of an answer and every item are kept, nothing
/// else is asked. Source: most general satisfiers, Carpenter 1992,
/// chapters 4, 14 and 15.
pub fn reply_law()
    ensures replies { ReplyLaws }
    ensures whole { WholeReplyLaws }
{
    closure_law();
    visible_laws();
}

/// A reply is marked unfinished exactly where its search, or the lexicon's closure where the command uses it,
/// needs more visits than its budget, and it never makes more. This holds of every program, also of those with
/// cut, negation and if-then.
pub fn marks_law()
    ensures { MarksLaws }
{}
