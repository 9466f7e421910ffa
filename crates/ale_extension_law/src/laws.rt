ghost use Rattle.ale_hierarchy.specs.Hierarchy.{Hierarchy};
ghost use Rattle.ale_logic.specs.Growing.{VisibleStays};
ghost use Rattle.ale_logic.specs.Parts.{whole_of};
ghost use Rattle.ale_logic.specs.PartLaws.{PartLaw};
ghost use Rattle.ale_logic.specs.Programs.{Program};
ghost use Rattle.ale_logic.specs.PutLaws.{PutLaws};
ghost use Rattle.ale_logic.specs.Staying.{StaysLaws};
ghost use Rattle.ale_logic.specs.Steps.{SpellingLaws};

use ale_morphism::visible_laws;

/// What holds at the nodes of a structure holds there in each extension of it: types, values, descriptions,
/// goals, constraints, lexical words, empty categories, lists and spans.
pub fn stays_law()
    ensures { StaysLaws }
{}

/// The facts of a structure that is put among others hold exactly where it goes by a morphism.
pub fn put_law()
    ensures { PutLaws }
{}

/// Where words are found once for each phrase, it has the words of its pieces, and no others fit in the end.
pub fn spelling_law()
    ensures { SpellingLaws }
{}

/// All of an answer is a part of it: what a way to take parts of answers owes.
pub fn whole_law()
    ensures { (h : Hierarchy) (program : Program) → PartLaw h program whole_of }
{}

/// An extension adds nothing visible, whatever nodes the roots are.
pub fn visible_stays_law()
    ensures { VisibleStays }
{
    visible_laws();
}
