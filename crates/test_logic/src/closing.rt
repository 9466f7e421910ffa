//! Closures of facts that are looked over first, so that a case may give any facts.
ghost use Rattle.std.specs.Prelude.{IsTrue, IfOk, IfSome};
ghost use Rattle.ale_hierarchy.specs.Order.{hierarchy};
ghost use Rattle.ale_graph.specs.Facts.{Fits, FitsFact};
ghost use Rattle.ale_graph.specs.Structures.{IsStructure};

use crate::facts::facts_of;
use ale_graph::{Closed, Fact, close, closure_law};
use ale_signature::Signature;
use std::alloc::{AllocError, Global};

/// Whether the fact speaks of nodes below `next`, and of types and features of the signature.
#[tactic(auto, unfolding(ale_hierarchy::specs::Order::hierarchy))]
fn speaks_of_known(sig: &Signature, fact: &Fact, next: usize) -> bool
    ensures { IsTrue result → FitsFact (hierarchy sig.now) next fact.now }
{
    match fact {
        Fact::OfType(node, of) => *node < next && of.index() < sig.type_count(),
        Fact::Value(node, feature, value) => {
            *node < next && feature.index() < sig.feat_count() && *value < next
        }
        Fact::Same(one, other) => *one < next && *other < next,
        Fact::Differ(one, other) => *one < next && *other < next,
    }
}

/// Whether all of the facts do.
fn speak_of_known(sig: &Signature, facts: &[Fact], next: usize) -> bool
    ensures { IsTrue result → Fits (hierarchy sig.now) facts.now next }
{
    for fact in facts {
        if !speaks_of_known(sig, fact, next) {
            return false;
        }
    }
    true
}

/// The closure of facts that speak of what is known; None where they do not, or where there is none.
pub fn closed(
    alloc: Global,
    sig: &Signature,
    facts: &[Fact],
    next: usize,
) -> Result<Option<Closed>, AllocError>
    ensures { IfOk result (λ o. IfSome o (λ c. IsStructure (hierarchy sig.now) c.graph)) }
{
    closure_law();
    let _ = sig.type_count();
    if speak_of_known(sig, facts, next) {
        close(alloc, sig, facts, next)
    } else {
        Ok(None)
    }
}

/// The closure of the facts of `COUNT: FACTS`, about nodes below the count; None where the text is not of this form,
/// where the facts speak of what is not known, and where there is none.
pub fn closed_text(alloc: Global, sig: &Signature, text: &str) -> Result<Option<Closed>, AllocError>
    ensures { IfOk result (λ o. IfSome o (λ c. IsStructure (hierarchy sig.now) c.graph)) }
{
    let Some((count, facts)) = text.split_once(": ") else {
        return Ok(None);
    };
    let Ok(next) = count.parse::<usize>() else {
        return Ok(None);
    };
    let facts = facts_of(alloc, sig, facts)?;
    closed(alloc, sig, facts.as_slice(), next)
}
