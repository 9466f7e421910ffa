ghost use Rattle.ale_logic.specs.LexiconLaws.{LexiconBudgetLaws, LexiconLaws};

use ale_graph::closure_law;
use ale_morphism::visible_laws;

/// What the entries and empty categories of the lexicon mean, at all levels of lexical rules and whatever is kept
/// of answers. Wherever the structure of one goes, its word is lexical at its root in an extension that is sound for
/// it; its own graph grows to a solution with the same visible part; an empty category is so of one declaration; and
/// where the lexicon is finished, whatever is lexical or empty in a model has one there. Source: lexical rules of
/// B. Carpenter and G. Penn, ALE 3.2 User's Guide.
pub fn lexicon_law()
    ensures { LexiconLaws }
{
    closure_law();
    visible_laws();
}

/// What a budget is to the lexicon, whatever is kept of answers: it is never exceeded, and only a search that
/// is due and has a state left to visit keeps the lexicon from its end; the visits of a finished one are just
/// as many as it needs, and with those or more it is the same.
pub fn lexicon_budget_law()
    ensures { LexiconBudgetLaws }
{}
