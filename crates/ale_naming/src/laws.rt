//! What holds of all names.
ghost use Rattle.ale_naming.specs.Laws.{NamesFit, NamingLaw};

/// Declarations give names one meaning or are refused for one fault, which the function that `names_of` carries out gives; and
/// what names mean fits a signature that obeys the laws of a hierarchy.
pub fn naming_law()
    ensures named { NamingLaw }
    ensures fit { NamesFit }
{}
