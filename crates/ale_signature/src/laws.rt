ghost use Rattle.ale_signature.specs.Deciding.{AcceptsDecides, FaultsDecide};
ghost use Rattle.ale_signature.specs.Laws.{SignatureLaw, RelationLaw, SomeIsAccepted};
ghost use Rattle.ale_declared.specs.Numbering.{DeclaredIsNumbered};

/// The laws of signatures: each accepted one obeys what the logic asks of a hierarchy, the functions tell
/// the relations that define them whether it is accepted or not, whatever is declared is well numbered, and
/// some declarations with a feature are accepted.
pub fn signature_law()
    ensures lawful { SignatureLaw }
    ensures relations { RelationLaw }
    ensures numbered { DeclaredIsNumbered }
    ensures satisfiable { SomeIsAccepted }
{}

/// The tests decide what is accepted, for whatever is declared.
pub fn acceptance_law()
    ensures { AcceptsDecides }
{}

/// The law of faults: a signature has no fault exactly where it is accepted, and else the one that is found
/// first and no other.
pub fn fault_law()
    ensures { FaultsDecide }
{}
