//! What holds of all descriptions and goals that written ones stand for.
ghost use Rattle.ale_describe.specs.Laws.{DescribeLaw, LimitsLaw};
ghost use Rattle.ale_describe.specs.MeaningLaws.{MeaningLaw, PlainGoalsLaw};
ghost use Rattle.ale_describe.specs.PlainLaws.{CallsLaw, PlainLaw};

use ale_vocabulary::first_law;

/// Descriptions and goals fit the signature, with the slots that there are behind them, where the names do.
pub fn describe_law()
    ensures { DescribeLaw }
{}

/// There is a sum of parts exactly where each description and all of them are within the limits.
pub fn limits_law()
    ensures { LimitsLaw }
{}

/// No inequation stands in a description where none is written, and none in a macro's body.
pub fn plain_law()
    ensures { PlainLaw }
{}

/// Each call of a described goal is of a predicate that is there, with as many descriptions as that has arguments.
pub fn calls_law()
    ensures { CallsLaw }
{}

/// Each description and each goal has one meaning or one refusal, which the function gives that `Names::desc` and `Names::goal`
/// carry out; and what it means fits the signature, where the names do.
pub fn meaning_law()
    ensures { MeaningLaw }
{
    first_law();
}

/// No cut, negation or if-then stands in a goal where none is written.
pub fn plain_goals_law()
    ensures { PlainGoalsLaw }
{}
