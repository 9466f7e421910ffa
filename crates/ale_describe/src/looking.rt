//! Names looked up that are known to be there.
ghost use Rattle.std.specs.Prelude.{◌≡◌, IfOk};
ghost use Rattle.ale_relation.specs.Has.{Has};
ghost use Rattle.ale_declared.specs.Names.{number};
ghost use Rattle.ale_vocabulary.specs.Keys.{key};
ghost use Rattle.ale_describe.specs.Known.{HaveAll, HasLists};
ghost use Rattle.ale_describe.specs.Templating.{e_list, path_of};

use crate::slots::narrow;
use ale_signature::{FeatId, Signature, TypeId};
use ale_text::{Row, Text};
use ale_vocabulary::Vocabulary;
use std::alloc::{AllocError, Global};

/// The type with this name.
pub(crate) fn type_of(sig: &Signature, name: &Text) -> TypeId
    requires { Has sig.now.types name.now }
    ensures { result ≡ number sig.now.types name.now }
{
    match sig.type_named(name.as_str()) {
        Some(found) => found,
        None => unreachable!(),
    }
}

/// The type of the empty list.
pub(crate) fn empty_list(sig: &Signature) -> TypeId
    requires { HasLists sig.now }
    ensures { result ≡ e_list sig.now }
{
    match sig.type_named("e_list") {
        Some(found) => found,
        None => unreachable!(),
    }
}

/// The feature with this name.
pub(crate) fn feature_of(sig: &Signature, name: &Text) -> FeatId
    requires { Has sig.now.features name.now }
    ensures { result ≡ number sig.now.features name.now }
{
    match sig.feat_named(name.as_str()) {
        Some(found) => found,
        None => unreachable!(),
    }
}

/// The path of the features with these names.
pub(crate) fn path_of(
    alloc: Global,
    sig: &Signature,
    names: &[Text],
) -> Result<Row<FeatId>, AllocError>
    requires { HaveAll sig.now.features names.now }
    ensures { IfOk result (λ p. p ≡ path_of sig.now names.now) }
{
    let mut path = Vec::new(alloc);
    for name in names {
        path.push(feature_of(sig, name))?;
    }
    Ok(Row::of(path))
}

/// The number of the macro with this name and so many parameters; a number beyond 32 bits is out of memory.
pub(crate) fn macro_number(
    vocabulary: &Vocabulary,
    name: &Text,
    arity: usize,
) -> Result<u32, AllocError>
    requires { Has vocabulary.now.macros (key name.now arity) }
    ensures { IfOk result (λ m. m ≡ number vocabulary.now.macros (key name.now arity)) }
{
    match vocabulary.macro_named(name.as_str(), arity) {
        Some(found) => narrow(found),
        None => unreachable!(),
    }
}

/// The number of the predicate with this name and so many arguments; a number beyond 32 bits is out of memory.
pub(crate) fn predicate_number(
    vocabulary: &Vocabulary,
    name: &Text,
    arity: usize,
) -> Result<u32, AllocError>
    requires { Has vocabulary.now.predicates (key name.now arity) }
    ensures { IfOk result (λ p. p ≡ number vocabulary.now.predicates (key name.now arity)) }
{
    match vocabulary.predicate_named(name.as_str(), arity) {
        Some(found) => narrow(found),
        None => unreachable!(),
    }
}
