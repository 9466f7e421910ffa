//! Descriptions that are built.
ghost use Rattle.std.specs.Prelude.{◌≡◌, map};
ghost use Rattle.ale_term.specs.Terms.{term_data, terms_of};
ghost use Rattle.ale_stage.specs.Stages.{is_built, are_built, each_built};

use crate::stage::since;
use ale_term::Term;

/// Whether the description is made of forms that are built.
#[tactic(auto, using(ale_term::proofs::Terms::term_rules))]
pub fn is_built(term: &Term) -> bool
    ensures { result ≡ is_built (term_data term.now) }
{
    match term {
        Term::Name(_) => since(2),
        Term::Slot(_) | Term::Meet(_, _) => since(3),
        Term::At(_, inner) => is_built(inner.get()) && since(2),
        Term::All(terms) | Term::Any(terms) => {
            for part in terms.as_slice() {
                if !is_built(part) {
                    return false;
                }
            }
            since(2)
        }
        Term::Macro(_, terms) | Term::List(terms, None) => {
            for argument in terms.as_slice() {
                if !is_built(argument) {
                    return false;
                }
            }
            since(4)
        }
        Term::List(terms, Some(rest)) => {
            for member in terms.as_slice() {
                if !is_built(member) {
                    return false;
                }
            }
            is_built(rest.get()) && since(4)
        }
        Term::Differs(inner) => is_built(inner.get()) && since(6),
    }
}

/// Whether each of these descriptions is.
#[tactic(auto, using(ale_term::proofs::Terms::term_rules))]
pub(crate) fn are_built(terms: &[Term]) -> bool
    ensures all { result ≡ are_built (terms_of (map term_data terms.now)) }
    ensures each { result ≡ each_built (map term_data terms.now) }
{
    for term in terms {
        if !is_built(term) {
            return false;
        }
    }
    true
}
