ghost use Rattle.ale_chart_law.specs.Subsumed.{SubsumptionKeeps, AllKeeps};
ghost use Rattle.ale_logic.specs.ChartLaws.{ChartBudgetLaws, ChartLaws};
ghost use Rattle.ale_logic.specs.StartLaws.{StartLaws};

use ale_graph::closure_law;
use ale_morphism::visible_laws;

/// What the items of a chart mean, whatever is kept of answers and of items. A passive item spans its places in
/// an extension of each structure into which its own goes, and one over the whole sentence grows to a model that
/// solves the command and shows the same. Where a chart was finished with all words there, and each item that isn't
/// kept is replaced by one before it, whatever spans places of the sentence in a model is covered by an item, and
/// each passive item of the whole chart is subsumed by one of these.
/// Source: soundness and completeness of chart parsing over most general satisfiers, this project's own form.
pub fn chart_law()
    ensures { ChartLaws }
{
    closure_law();
    visible_laws();
}

/// What a budget is to the chart, whatever is kept of answers and of items: it is never exceeded, no more items are
/// new than visits were made, and all are processed; only a search that is due and has a state left to visit keeps
/// a chart from its end; the visits of a finished one are just as many as it needs, and with those or more it has
/// the same items; a larger budget puts more items behind those that there are.
pub fn chart_budget_law()
    ensures { ChartBudgetLaws }
{}

/// Each state with which a search starts speaks of known nodes, types, features, environments and phrases, and the
/// words of each of its phrases are sought once: for a description, a goal, the words of a node, a lexical rule, an
/// item of the chart alone, and an item with another as its daughter.
pub fn start_law()
    ensures { StartLaws }
{}

/// A Keep that drops an item only where an earlier one over the same places subsumes it, differing pairs to
/// differing pairs, replaces what it drops; and so does the one that keeps all.
pub fn keep_law()
    ensures subsumed { SubsumptionKeeps }
    ensures all { AllKeeps }
{}
