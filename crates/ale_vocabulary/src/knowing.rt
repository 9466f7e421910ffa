//! Whether what is mentioned is known, and the fault where it is not.
ghost use Rattle.std.specs.Prelude.{◌≡◌, IfOk, is_some};
ghost use Rattle.std.specs.Str.{chars};
ghost use Rattle.ale_declared.specs.Names.{is_named};
ghost use Rattle.ale_list.specs.Lists.{lists_in};
ghost use Rattle.ale_vocabulary.specs.declared.error.NameError.TheVariants.{UnknownType, UnknownFeature, UnknownMacro, UnknownPredicate, NoListTypes};
ghost use Rattle.ale_vocabulary.specs.First.{first_of};
ghost use Rattle.ale_vocabulary.specs.Keys.{key};
ghost use Rattle.ale_vocabulary.specs.Knowing.{unless};

use crate::error::NameError;
use crate::vocabulary::Vocabulary;
use ale_list::list_types;
use ale_signature::Signature;
use ale_text::Text;
use std::alloc::{AllocError, Global};

/// Whether the signature has a type with this name.
fn has_type(sig: &Signature, name: &Text) -> bool
    ensures { result ≡ is_named name.now sig.now.types }
{
    sig.type_named(name.as_str()).is_some()
}

/// Whether the signature has a feature with this name.
fn has_feature(sig: &Signature, name: &Text) -> bool
    ensures { result ≡ is_named name.now sig.now.features }
{
    sig.feat_named(name.as_str()).is_some()
}

/// The fault of a type that the signature lacks.
pub(crate) fn unknown_type(
    alloc: Global,
    sig: &Signature,
    name: &Text,
) -> Result<Option<NameError>, AllocError>
    ensures { IfOk result (λ o. o ≡ unless (is_named name.now sig.now.types) (UnknownType name.now)) }
{
    if has_type(sig, name) {
        return Ok(None);
    }
    Ok(Some(NameError::UnknownType(name.copy(alloc)?)))
}

/// The fault of a feature that the signature lacks.
pub(crate) fn unknown_feature(
    alloc: Global,
    sig: &Signature,
    name: &Text,
) -> Result<Option<NameError>, AllocError>
    ensures { IfOk result (λ o. o ≡ unless (is_named name.now sig.now.features) (UnknownFeature name.now)) }
{
    if has_feature(sig, name) {
        return Ok(None);
    }
    Ok(Some(NameError::UnknownFeature(name.copy(alloc)?)))
}

/// The fault of the first feature of a path that the signature lacks.
pub(crate) fn unknown_on_path(
    alloc: Global,
    sig: &Signature,
    path: &[Text],
) -> Result<Option<NameError>, AllocError>
    ensures { IfOk result (λ o. o ≡ first_of (λ f. unless (is_named f sig.now.features) (UnknownFeature f)) path.now) }
{
    for name in path {
        if let Some(fault) = unknown_feature(alloc, sig, name)? {
            return Ok(Some(fault));
        }
    }
    Ok(None)
}

/// The fault of a macro that is not declared with so many parameters.
pub(crate) fn unknown_macro(
    alloc: Global,
    vocabulary: &Vocabulary,
    name: &Text,
    arity: usize,
) -> Result<Option<NameError>, AllocError>
    ensures { IfOk result (λ o. o ≡ unless (is_named (key name.now arity) vocabulary.now.macros) (UnknownMacro name.now arity)) }
{
    if vocabulary.has_macro(name, arity) {
        return Ok(None);
    }
    Ok(Some(NameError::UnknownMacro(name.copy(alloc)?, arity)))
}

/// The fault of a predicate of which no clause is, with so many arguments.
pub(crate) fn unknown_predicate(
    alloc: Global,
    vocabulary: &Vocabulary,
    name: &Text,
    arity: usize,
) -> Result<Option<NameError>, AllocError>
    ensures { IfOk result (λ o. o ≡ unless (is_named (key name.now arity) vocabulary.now.predicates) (UnknownPredicate name.now arity)) }
{
    if vocabulary.has_predicate(name, arity) {
        return Ok(None);
    }
    Ok(Some(NameError::UnknownPredicate(name.copy(alloc)?, arity)))
}

/// The fault of a list where the signature has no types and features of lists.
pub(crate) fn unknown_list(sig: &Signature) -> Option<NameError>
    ensures { result ≡ unless (is_some (lists_in sig.now)) NoListTypes }
{
    if list_types(sig).is_some() {
        None
    } else {
        Some(NameError::NoListTypes)
    }
}
