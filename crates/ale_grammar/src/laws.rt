//! What holds of all declarations.
ghost use Rattle.ale_grammar.specs.Laws.{BoundLaw, ProgramsArePlain, ProgramsFit, ResolvedNamesFit, ResolveLaw};

use ale_naming::naming_law;

/// Declarations are resolved to one program or refused for one fault, which the function that `resolve` carries out gives.
pub fn resolve_law()
    ensures { ResolveLaw }
{
    naming_law();
}

/// The program that declarations are resolved to fits a signature that obeys the laws of a hierarchy, and what its names mean
/// does; no cut, negation, if-then or if-then-else stands in it where none is written in the declarations' goals.
pub fn grammar_law()
    ensures fit { ProgramsFit }
    ensures names { ResolvedNamesFit }
    ensures plain { ProgramsArePlain }
{
    naming_law();
}

/// Each line of morphology of a declaration that is read is bound: its left side tells what stands on its right side.
pub fn bound_law()
    ensures { BoundLaw }
{}
