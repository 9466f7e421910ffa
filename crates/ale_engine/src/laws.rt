ghost use Rattle.std.specs.Prelude.{ℕ};
ghost use Rattle.ale_engine.specs.Engine.{Visit};
ghost use Rattle.ale_engine.specs.GrowthLaws.{EngineLaw};

/// The laws of every search, whatever the states are, what is found and what a visit gives: a budget is never
/// exceeded, and only what waits keeps a search from its end; the visits of a finished search, or of finished
/// searches in turn, are just as many as they need, and with those or more all is the same; a larger budget
/// gives what the rest of the search gives behind what was found; a search that stops at its first answer is
/// the search up to there; what is found in turn was made by an answer of one of the searches.
pub fn engine_law<S, A, B>()
    ensures { (visit : ℕ → S → Visit S A) → EngineLaw S A B visit }
{}
