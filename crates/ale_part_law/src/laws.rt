ghost use Rattle.ale_hierarchy.specs.Hierarchy.{Hierarchy, IsLawful};
ghost use Rattle.ale_logic.specs.PartLaws.{PartLaw};
ghost use Rattle.ale_logic.specs.Programs.{Program};
ghost use Rattle.ale_part_law.specs.VisibleParts.{visible_of};

use ale_morphism::visible_laws;

/// The visible part of an answer, with its root, its variables where elements remain, and what these elements name
/// as roots, is a part of it: what a way to take parts of answers owes. Wherever it goes, what was cut off is added
/// again, in an extension whose added nodes are images of the answer's nodes with their types.
/// Source: feature structures as rooted graphs, Carpenter 1992, chapter 2.
pub fn visible_part_law()
    ensures { (h : Hierarchy) (program : Program) → IsLawful h → PartLaw h program visible_of }
{
    visible_laws();
}
