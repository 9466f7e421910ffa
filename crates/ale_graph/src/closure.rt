ghost use Rattle.std.specs.Prelude.{◌≡◌, IfOk, MatchOption};
ghost use Rattle.ale_hierarchy.specs.Hierarchy.{IsLawful};
ghost use Rattle.ale_hierarchy.specs.Order.{hierarchy};
ghost use Rattle.ale_graph.specs.Facts.{Fits};
ghost use Rattle.ale_graph.specs.Classes.{classes};
ghost use Rattle.ale_graph.specs.Types.{least_types};
ghost use Rattle.ale_graph.specs.Closure.{close};
ghost use Rattle.ale_graph.specs.Working.{IsFirstDraft, lists_of};

use crate::closed::Closed;
use crate::draft::Draft;
use crate::fact::Fact;
use crate::fill::fill;
use crate::join::{Joined, join_all};
use crate::merge::collapse;
use crate::order::lawful;
use crate::raise::raise_all;
use crate::result::{are_kept_apart, closed};
use ale_signature::Signature;
use std::alloc::{AllocError, Global};

/// The least classes and types of the facts; None where a join is missing.
fn first_step(
    alloc: Global,
    sig: &Signature,
    facts: &[Fact],
    next: usize,
) -> Result<Option<Draft>, AllocError>
    requires lawful { IsLawful (hierarchy sig.now) }
    requires fits { Fits (hierarchy sig.now) facts.now next }
    ensures { IfOk result (λ o. MatchOption o
        (least_types (hierarchy sig.now) facts.now next (classes facts.now next) ≡ None)
        (λ d. IsFirstDraft (hierarchy sig.now) facts.now next (lists_of d))) }
{
    let Joined { class, values } = join_all(alloc, facts, next)?;
    match raise_all(alloc, sig, facts, class.as_slice())? {
        None => Ok(None),
        Some(types) => {
            let facts = Vec::from_slice(alloc, facts)?;
            Ok(Some(Draft {
                facts,
                class,
                types,
                values,
            }))
        }
    }
}

/// The closure of the facts about the nodes below `next`; None exactly where there is none.
pub fn close(
    alloc: Global,
    sig: &Signature,
    facts: &[Fact],
    next: usize,
) -> Result<Option<Closed>, AllocError>
    requires { Fits (hierarchy sig.now) facts.now next }
    ensures { IfOk result (λ r. r ≡ close (hierarchy sig.now) facts.now next) }
{
    lawful(sig);
    match first_step(alloc, sig, facts, next)? {
        None => Ok(None),
        Some(mut draft) => {
            fill(alloc, sig, &mut draft)?;
            collapse(sig, &mut draft)?;
            if !are_kept_apart(draft.class.as_slice(), draft.facts.as_slice()) {
                return Ok(None);
            }
            Ok(Some(closed(alloc, sig, draft)?))
        }
    }
}
