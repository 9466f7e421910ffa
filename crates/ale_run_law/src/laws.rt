ghost use Rattle.ale_logic.specs.Answers.{DescriptionLaws, GoalLaws, EnoughLaw};
ghost use Rattle.ale_logic.specs.LexiconLaws.{KeptLaws};
ghost use Rattle.ale_logic.specs.ModelLaws.{ModelLaws};
ghost use Rattle.ale_logic.specs.Runs.{RunLaws};

use ale_graph::closure_law;

/// What whole searches come to, from any states: each answer was found in a state that went on from a first
/// one, owes nothing, and satisfies that first one wherever its graph goes; at the end each model that satisfies a
/// first state is reached by an answer, with the same elements remaining. Source: most general satisfiers,
/// Carpenter 1992, chapters 4, 14 and 15.
pub fn run_law()
    ensures { RunLaws }
{
    closure_law();
}

/// The graph of an answer is a model where what its first state imposed, and what words brought, is met there.
pub fn model_law()
    ensures { ModelLaws }
{
    closure_law();
}

/// What the answers for a description mean: each is a model and as described at its root, and so is the image of
/// its root in each structure that it subsumes; and a finished search has an answer that subsumes each solution.
pub fn description_law()
    ensures { DescriptionLaws }
{
    closure_law();
}

/// What the answers for a goal mean: each is a model in which the goal is derived, whatever node an unbound
/// variable stands for, and so is it in each structure that the answer subsumes; and a finished search has an answer
/// that subsumes each solution, with its variables.
pub fn goal_law()
    ensures { GoalLaws }
{
    closure_law();
}

/// What is kept of the answers for a description, whatever is kept: where it goes, an extension that is sound for
/// it has the description at its root; and where the search ended, something kept goes to each solution.
pub fn kept_law()
    ensures { KeptLaws }
{
    closure_law();
}

/// Two visits for each part of a description and two to spare are enough, where neither it has a disjunction
/// nor the program a constraint.
pub fn enough_law()
    ensures { EnoughLaw }
{}
