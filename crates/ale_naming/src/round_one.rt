//! The first round: mentions that are not known.
ghost use Rattle.std.specs.Prelude.{◌≡◌, map};
ghost use Rattle.ale_declaration.specs.Declarations.{declaration_data};
ghost use Rattle.ale_naming.specs.Answers.{Refuses};
ghost use Rattle.ale_naming.specs.Rounds.{round_one};

use crate::fault::NameFault;
use ale_declaration::Declaration;
use ale_signature::Signature;
use ale_vocabulary::{Vocabulary, first_unknown_in_declaration};
use std::alloc::Global;

/// Refuses the first declaration that mentions something that is not known, for its first such mention.
pub(crate) fn round_one(
    alloc: Global,
    sig: &Signature,
    vocabulary: &Vocabulary,
    decls: &[Declaration],
) -> Result<(), NameFault>
    ensures { Refuses result (round_one sig.now vocabulary.now 1 (map declaration_data decls.now)) }
{
    for (index, declaration) in decls.iter().enumerate() {
        if let Some(error) = first_unknown_in_declaration(alloc, sig, vocabulary, declaration)? {
            return Err(NameFault::At(index + 1, error));
        }
    }
    Ok(())
}
