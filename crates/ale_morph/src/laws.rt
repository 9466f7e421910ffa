//! Laws of morphology.

ghost use Rattle.ale_morph.specs.Laws.{SearchIsMeant, OneAnswer};

/// What the search finds is what a word becomes, and where each slot of a line's right side stands in its left
/// side, a word becomes nothing else.
pub fn morphology_law()
    ensures meant { SearchIsMeant }
    ensures one { OneAnswer }
{}
