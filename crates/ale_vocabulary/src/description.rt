//! The first mention of a description that is not known.
ghost use Rattle.std.specs.Prelude.{◌≡◌, IfOk, IfSome, IfNone, map};
ghost use Rattle.ale_declared.specs.Names.{is_named};
ghost use Rattle.ale_vocabulary.specs.declared.error.NameError.TheVariants.{UnknownFeature};
ghost use Rattle.ale_term.specs.Terms.{term_data, terms_of};
ghost use Rattle.ale_vocabulary.specs.First.{IsFirst, AllRight, first_of, or_else};
ghost use Rattle.ale_vocabulary.specs.Knowing.{IsUnknown, unknown_in, unless};
ghost use Rattle.ale_vocabulary.specs.Mentions.{mentions, mentions_of_all};

use crate::error::NameError;
use crate::knowing::{unknown_feature, unknown_list, unknown_macro, unknown_on_path, unknown_type};
use crate::vocabulary::Vocabulary;
use ale_signature::Signature;
use ale_term::Term;
use ale_text::Text;
use std::alloc::{AllocError, Global};

/// The fault of the first feature of two paths that is not known.
#[tactic(auto, using(crate::proofs::Firsts::first_append, crate::proofs::Firsts::first_map))]
fn first_on_paths(
    alloc: Global,
    sig: &Signature,
    left: &[Text],
    right: &[Text],
) -> Result<Option<NameError>, AllocError>
    ensures { IfOk result (λ o. o ≡ or_else (first_of (λ f. unless (is_named f sig.now.features) (UnknownFeature f)) left.now)
        (first_of (λ f. unless (is_named f sig.now.features) (UnknownFeature f)) right.now)) }
{
    if let Some(fault) = unknown_on_path(alloc, sig, left)? {
        return Ok(Some(fault));
    }
    unknown_on_path(alloc, sig, right)
}

/// The fault of the first mention that is not known.
#[cycle(terms)]
#[tactic(auto, using(ale_term::proofs::Terms::term_rules, crate::proofs::Firsts::first_rules))]
pub(crate) fn first_in(
    alloc: Global,
    sig: &Signature,
    vocabulary: &Vocabulary,
    term: &Term,
) -> Result<Option<NameError>, AllocError>
    ensures { IfOk result (λ o. o ≡ first_of (unknown_in sig.now vocabulary.now) (mentions (term_data term.now))) }
{
    match term {
        Term::Name(name) => unknown_type(alloc, sig, name),
        Term::Slot(_) => Ok(None),
        Term::At(name, inner) => {
            if let Some(fault) = unknown_feature(alloc, sig, name)? {
                return Ok(Some(fault));
            }
            first_in(alloc, sig, vocabulary, inner.get())
        }
        Term::All(terms) | Term::Any(terms) => {
            first_in_each(alloc, sig, vocabulary, terms.as_slice())
        }
        Term::Differs(inner) => first_in(alloc, sig, vocabulary, inner.get()),
        Term::Meet(left, right) => first_on_paths(alloc, sig, left.as_slice(), right.as_slice()),
        Term::Macro(name, arguments) => {
            if let Some(fault) = unknown_macro(alloc, vocabulary, name, arguments.len())? {
                return Ok(Some(fault));
            }
            first_in_each(alloc, sig, vocabulary, arguments.as_slice())
        }
        Term::List(members, rest) => {
            if let Some(fault) = unknown_list(sig) {
                return Ok(Some(fault));
            }
            if let Some(fault) = first_in_each(alloc, sig, vocabulary, members.as_slice())? {
                return Ok(Some(fault));
            }
            match rest {
                None => Ok(None),
                Some(others) => first_in(alloc, sig, vocabulary, others.get()),
            }
        }
    }
}

/// The fault of the first mention that is not known of several descriptions one after the other.
#[cycle(terms)]
#[tactic(auto, using(ale_term::proofs::Terms::term_rules, crate::proofs::Firsts::first_rules))]
pub(crate) fn first_in_each(
    alloc: Global,
    sig: &Signature,
    vocabulary: &Vocabulary,
    terms: &[Term],
) -> Result<Option<NameError>, AllocError>
    ensures { IfOk result (λ o. o ≡ first_of (unknown_in sig.now vocabulary.now) (mentions_of_all (terms_of (map term_data terms.now)))) }
{
    for term in terms {
        if let Some(fault) = first_in(alloc, sig, vocabulary, term)? {
            return Ok(Some(fault));
        }
    }
    Ok(None)
}

/// The fault of the first mention of a description, from left to right, that is not known.
#[tactic(auto, using(crate::proofs::Found::answer_first, crate::proofs::Found::answer_none))]
pub fn first_unknown(
    alloc: Global,
    sig: &Signature,
    vocabulary: &Vocabulary,
    term: &Term,
) -> Result<Option<NameError>, AllocError>
    ensures value { IfOk result (λ o. o ≡ first_of (unknown_in sig.now vocabulary.now) (mentions (term_data term.now))) }
    ensures first { IfOk result (λ o. IfSome o (IsFirst (IsUnknown sig.now vocabulary.now) (mentions (term_data term.now)))) }
    ensures none { IfOk result (λ o. IfNone o (AllRight (IsUnknown sig.now vocabulary.now) (mentions (term_data term.now)))) }
{
    first_in(alloc, sig, vocabulary, term)
}
