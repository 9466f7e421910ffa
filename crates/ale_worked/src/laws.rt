ghost use Rattle.ale_worked.specs.Premises.{PremisesAreMet};
ghost use Rattle.ale_worked.specs.Worked.{TwoClauses, Conjunction, Append, FirstOnly, Negation, IfThenElse, Inequations, Constraints, Levels, Parses, Generation};

/// Some grammar meets the premises of the laws of the logic, with every kind of declaration in it.
pub fn premises_law()
    ensures { PremisesAreMet }
{}

/// What searches for descriptions and goals find, in order, and in how many visits: two clauses, a conjunction,
/// lists appended, a cut, negation, if-then-else, inequations, and constraints.
pub fn search_examples()
    ensures two_clauses { TwoClauses }
    ensures conjunction { Conjunction }
    ensures append { Append }
    ensures first_only { FirstOnly }
    ensures negation { Negation }
    ensures if_then_else { IfThenElse }
    ensures inequations { Inequations }
    ensures constraints { Constraints }
{}

/// What is found of words, and in how many visits: the levels of a lexicon, a parse with an empty category, one with
/// a list of daughters, and a generation.
pub fn words_examples()
    ensures levels { Levels }
    ensures parses { Parses }
    ensures generation { Generation }
{}
