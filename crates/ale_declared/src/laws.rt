ghost use Rattle.ale_declared.specs.Numbering.{NamesAreDistinct, DeclaredIsNumbered};

/// The laws of numbers: whatever is declared, no two types have one name and no two features, and each
/// number that is used is below the count.
pub fn numbering_law()
    ensures distinct { NamesAreDistinct }
    ensures numbered { DeclaredIsNumbered }
{}
