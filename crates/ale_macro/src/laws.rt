//! What holds of all libraries.
ghost use Rattle.ale_macro.specs.Laws.{LibraryLaw};

/// A call stands for what the body of its macro stands for; what templates stand for fits the signature where they do, and has
/// no inequation where they have none; and numbering variables changes no number of parts.
pub fn library_law()
    ensures { LibraryLaw }
{}
