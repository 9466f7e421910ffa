ghost use Rattle.ale_search.specs.NextLaws.{NextLaws};
ghost use Rattle.ale_search.specs.ToldLaws.{ToldLaws};

/// What a search that stops at its first answer has to do with the whole search within the same budget: the whole search
/// has that answer first, and then what comes of what waits with the visits that are left; or it has no answer and is
/// finished; or it has none, all visits are made, and with more it goes on from what waits.
pub fn next_law()
    ensures { NextLaws }
{}

/// What is shown of an answer, from its root or from the nodes of variables, by what is told of it, is what replies show of it.
pub fn told_law()
    ensures { ToldLaws }
{}
