//! The macros that a grammar declares.
ghost use Rattle.std.specs.Prelude.{◌≡◌, IfOk, [], map};
ghost use Rattle.std.specs.Option.{option_map};
ghost use Rattle.ale_declared.specs.Names.{named};
ghost use Rattle.ale_term.specs.Terms.{term_data};
ghost use Rattle.ale_declaration.specs.Declarations.{declaration_data};
ghost use Rattle.ale_vocabulary.specs.First.{AllRight};
ghost use Rattle.ale_vocabulary.specs.Knowing.{IsUnknown};
ghost use Rattle.ale_vocabulary.specs.Mentions.{mentions, mentions_of_declaration};
ghost use Rattle.ale_vocabulary.specs.Keys.{key};
ghost use Rattle.ale_vocabulary.specs.Vocabularies.{vocabulary_of};
ghost use Rattle.ale_macro.specs.Templates.{macro_data};
ghost use Rattle.ale_describe.specs.Macros.{macro_of, macros_after};
ghost use Rattle.ale_describe.specs.Declaring.{AreKnownDeclarations, MacrosLaw, is_next, macro_in};

use crate::slots::{Slots, narrow};
use crate::templates::templated;
use ale_declaration::Declaration;
use ale_macro::Macro;
use ale_signature::Signature;
use ale_term::Term;
use ale_text::Text;
use ale_vocabulary::Vocabulary;
use std::alloc::{AllocError, Global};

/// The macros of these declarations in order, each by its first declaration: what the macros of the vocabulary stand for. All
/// names that the declarations mention are known. The error is want of memory, also where a macro has more than 2^32
/// variables.
pub fn macros(
    alloc: Global,
    sig: &Signature,
    vocabulary: &Vocabulary,
    decls: &[Declaration],
) -> Result<Vec<Macro>, AllocError>
    requires vocabulary { vocabulary.now ≡ vocabulary_of (map declaration_data decls.now) }
    requires known { AreKnownDeclarations sig.now vocabulary.now (map declaration_data decls.now) }
    ensures { IfOk result (λ ms. map macro_data ms.items ≡ macros_after sig.now vocabulary.now [] (map declaration_data decls.now)) }
{
    let mut made = Vec::new(alloc);
    for decl in decls {
        if let Some(new) = macro_in(alloc, sig, vocabulary, made.len(), decl)? {
            made.push(new)?;
        }
    }
    Ok(made)
}

/// The macro of this declaration, where it is the first of a macro, after declarations of so many.
fn macro_in(
    alloc: Global,
    sig: &Signature,
    vocabulary: &Vocabulary,
    count: usize,
    decl: &Declaration,
) -> Result<Option<Macro>, AllocError>
    requires known { AllRight (IsUnknown sig.now vocabulary.now) (mentions_of_declaration (declaration_data decl.now)) }
    ensures { IfOk result (λ m. option_map macro_data m ≡ macro_in sig.now vocabulary.now count (declaration_data decl.now)) }
{
    match decl {
        Declaration::Macro(name, parameters, body) => {
            if !is_next(vocabulary, name, parameters.as_slice().len(), count) {
                return Ok(None);
            }
            let new = macro_of(alloc, sig, vocabulary, parameters.as_slice(), body)?;
            Ok(Some(new))
        }
        _ => Ok(None),
    }
}

/// Whether the macro with this name and so many parameters is the one after so many.
fn is_next(vocabulary: &Vocabulary, name: &Text, arity: usize, count: usize) -> bool
    ensures { result ≡ is_next (named vocabulary.now.macros (key name.now arity)) count }
{
    match vocabulary.macro_named(name.as_str(), arity) {
        Some(found) => found == count,
        None => false,
    }
}

/// The macro with these parameters and this body.
fn macro_of(
    alloc: Global,
    sig: &Signature,
    vocabulary: &Vocabulary,
    parameters: &[Text],
    body: &Term,
) -> Result<Macro, AllocError>
    requires known { AllRight (IsUnknown sig.now vocabulary.now) (mentions (term_data body.now)) }
    ensures { IfOk result (λ m. macro_data m ≡ macro_of sig.now vocabulary.now parameters.now (term_data body.now)) }
{
    let count = narrow(parameters.len())?;
    let mut slots = with_parameters(alloc, parameters)?;
    let template = templated(alloc, sig, vocabulary, &mut slots, body)?;
    Ok(Macro {
        parameters: count,
        body: template,
    })
}

/// The scope whose first variables are these parameters.
fn with_parameters(alloc: Global, parameters: &[Text]) -> Result<Slots, AllocError>
    ensures { IfOk result (λ s. s ≡ parameters.now) }
{
    let mut slots = Slots::new(alloc);
    for parameter in parameters {
        slots.add(alloc, parameter)?;
    }
    Ok(slots)
}

/// The macros are known and fit the signature, and their keys are those of the vocabulary.
pub fn macros_law()
    ensures { MacrosLaw }
{}
