//! Laws about first faults and about keys.
ghost use Rattle.ale_vocabulary.specs.Laws.{FirstIsFound, KeysTellApart};

/// What is found first is the first fault, and no other; and nothing is found exactly where all is right.
pub fn first_law()
    ensures { FirstIsFound }
{}

/// Two keys are the same only where names and numbers of arguments are.
pub fn key_law()
    ensures { KeysTellApart }
{}
