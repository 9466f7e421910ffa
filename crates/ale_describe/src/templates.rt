//! Written descriptions as templates.
ghost use Rattle.std.specs.Prelude.{◌≡◌, IfOk, map};
ghost use Rattle.ale_term.specs.Terms.{term_data, terms_of};
ghost use Rattle.ale_macro.specs.Templates.{template_data, templates_of};
ghost use Rattle.ale_describe.specs.Known.{IsKnownTerm, AreKnownTerms};
ghost use Rattle.ale_describe.specs.Templating.{templated, all_templated};

use crate::looking::{empty_list, feature_of, macro_number, path_of, type_of};
use crate::slots::Slots;
use ale_macro::Template;
use ale_signature::Signature;
use ale_term::Term;
use ale_vocabulary::Vocabulary;
use sqlite_items::{Boxed, Items};
use std::alloc::{AllocError, Global};

/// The template of a description all of whose names are known; adds its variables and calls to those of its declaration.
#[cycle(templating)]
#[tactic(auto, using(ale_macro::proofs::Templates::template_rules, ale_term::proofs::Terms::term_rules, crate::proofs::Loops::length_rules))]
pub(crate) fn templated(
    alloc: Global,
    sig: &Signature,
    vocabulary: &Vocabulary,
    slots: &mut Slots,
    term: &Term,
) -> Result<Template, AllocError>
    requires { IsKnownTerm sig.now vocabulary.now (term_data term.now) }
    ensures { IfOk result (λ t. (template_data t, slots.new) ≡ templated sig.now vocabulary.now slots.old (term_data term.now)) }
{
    match term {
        Term::Name(name) => Ok(Template::OfType(type_of(sig, name))),
        Term::Slot(name) => Ok(Template::Variable(slots.slot(alloc, name)?)),
        Term::At(name, value) => {
            let feature = feature_of(sig, name);
            let value = templated(alloc, sig, vocabulary, slots, value.get())?;
            Ok(Template::At(feature, Boxed::new(alloc, value)?))
        }
        Term::All(terms) => {
            let parts = all_templated(alloc, sig, vocabulary, slots, terms.as_slice())?;
            Ok(Template::All(parts))
        }
        Term::Any(terms) => {
            let parts = all_templated(alloc, sig, vocabulary, slots, terms.as_slice())?;
            Ok(Template::Any(parts))
        }
        Term::Differs(other) => {
            let other = templated(alloc, sig, vocabulary, slots, other.get())?;
            Ok(Template::Differs(Boxed::new(alloc, other)?))
        }
        Term::Meet(first, second) => {
            let first = path_of(alloc, sig, first.as_slice())?;
            let second = path_of(alloc, sig, second.as_slice())?;
            Ok(Template::Meet(first, second))
        }
        Term::Macro(name, arguments) => {
            let called = macro_number(vocabulary, name, arguments.as_slice().len())?;
            let number = slots.call(alloc)?;
            let arguments = all_templated(alloc, sig, vocabulary, slots, arguments.as_slice())?;
            Ok(Template::Call(number, called, arguments))
        }
        Term::List(members, None) => {
            let members = all_templated(alloc, sig, vocabulary, slots, members.as_slice())?;
            let end = Template::OfType(empty_list(sig));
            Ok(Template::Cells(members, Boxed::new(alloc, end)?))
        }
        Term::List(members, Some(end)) => {
            let members = all_templated(alloc, sig, vocabulary, slots, members.as_slice())?;
            let end = templated(alloc, sig, vocabulary, slots, end.get())?;
            Ok(Template::Cells(members, Boxed::new(alloc, end)?))
        }
    }
}

/// The templates of these descriptions, one after another from left to right.
#[cycle(templating)]
fn all_templated(
    alloc: Global,
    sig: &Signature,
    vocabulary: &Vocabulary,
    slots: &mut Slots,
    terms: &[Term],
) -> Result<Items<Template>, AllocError>
    requires { AreKnownTerms sig.now vocabulary.now (terms_of (map term_data terms.now)) }
    ensures { IfOk result (λ ts. (templates_of (map template_data ts), slots.new) ≡ all_templated sig.now vocabulary.now slots.old (terms_of (map term_data terms.now))) }
{
    let mut made = Vec::new(alloc);
    for term in terms {
        let template = templated(alloc, sig, vocabulary, slots, term)?;
        made.push(template)?;
    }
    Ok(Items::from_vec(made))
}
