ghost use Rattle.std.specs.Prelude.{◌≡◌, ℕ, ◌<◌, IfOk, MatchOption, Some, None, false, length, replicate, slice_set};
ghost use Rattle.ale_hierarchy.specs.Hierarchy.{IsLawful};
ghost use Rattle.ale_hierarchy.specs.Order.{hierarchy};
ghost use Rattle.ale_graph.specs.Facts.{Fits, FitsFact};
ghost use Rattle.ale_graph.specs.Types.{least_types};
ghost use Rattle.ale_graph.specs.Drafts.{class_in, type_in};
ghost use Rattle.ale_graph.specs.Keeping.{IsClasses};
ghost use Rattle.ale_graph.specs.Raising.{AllInside, HasTypes, raise, raise_fact, raise_facts, raising_of};

use crate::fact::Fact;
use crate::order::{approp, intro, is_above, join};
use crate::partition::{class_of, type_of};
use ale_signature::{FeatId, Signature, TypeId};
use std::alloc::{AllocError, Global};

/// Writes the type of a class.
fn set_type(types: &mut Vec<TypeId>, class: usize, of: TypeId)
    ensures { types.new.items ≡ slice_set types.old.items class of }
{
    if let Some(slot) = types.get_mut(class) {
        *slot = of;
    }
}

/// Raises a class to a type at least, and says whether anything has changed so far; None where there is no
/// join.
fn raise(
    sig: &Signature,
    types: &mut Vec<TypeId>,
    class: usize,
    least: TypeId,
    changed: bool,
) -> Option<bool>
    requires lawful { IsLawful (hierarchy sig.now) }
    requires least { least < (hierarchy sig.now).types }
    requires inside { AllInside (hierarchy sig.now) types.old.items }
    ensures value { raising_of types.new.items result
        ≡ raise (hierarchy sig.now) class least (record { types = types.old.items; changed = changed }) }
    ensures inside { AllInside (hierarchy sig.now) types.new.items }
{
    let now = type_of(types.as_slice(), class);
    if is_above(sig, least, now) {
        return Some(changed);
    }
    let joined = join(sig, now, least)?;
    set_type(types, class, joined);
    Some(true)
}

/// Raises the class of the node, and that of its value, to what the feature asks.
fn raise_value(
    sig: &Signature,
    class: &[usize],
    types: &mut Vec<TypeId>,
    node: usize,
    feature: FeatId,
    value: usize,
    changed: bool,
) -> Option<bool>
    requires lawful { IsLawful (hierarchy sig.now) }
    requires feature { feature < (hierarchy sig.now).features }
    requires inside { AllInside (hierarchy sig.now) types.old.items }
    ensures value { raising_of types.new.items result
        ≡ raise_fact (hierarchy sig.now) (class_in class.now) (Fact.Value node feature value) (record { types = types.old.items; changed = changed }) }
    ensures inside { AllInside (hierarchy sig.now) types.new.items }
{
    let at = class_of(class, node);
    let changed = raise(sig, types, at, intro(sig, feature), changed)?;
    match approp(sig, feature, type_of(types.as_slice(), at)) {
        Some(least) => raise(sig, types, class_of(class, value), least, changed),
        None => Some(changed),
    }
}

/// Raises types to what a fact asks.
fn raise_fact(
    sig: &Signature,
    class: &[usize],
    types: &mut Vec<TypeId>,
    fact: Fact,
    changed: bool,
) -> Option<bool>
    requires lawful { IsLawful (hierarchy sig.now) }
    requires fits { (next : ℕ) × FitsFact (hierarchy sig.now) next fact }
    requires inside { AllInside (hierarchy sig.now) types.old.items }
    ensures value { raising_of types.new.items result
        ≡ raise_fact (hierarchy sig.now) (class_in class.now) fact (record { types = types.old.items; changed = changed }) }
    ensures inside { AllInside (hierarchy sig.now) types.new.items }
{
    match fact {
        Fact::OfType(node, least) => raise(sig, types, class_of(class, node), least, changed),
        Fact::Value(node, feature, value) => raise_value(
            sig, class, types, node, feature, value, changed,
        ),
        Fact::Same(_, _) => Some(changed),
        Fact::Differ(_, _) => Some(changed),
    }
}

/// Raises types to what the facts ask, each in turn, and says whether anything has changed; None where there
/// is no join.
fn raise_facts(
    sig: &Signature,
    facts: &[Fact],
    class: &[usize],
    types: &mut Vec<TypeId>,
) -> Option<bool>
    requires lawful { IsLawful (hierarchy sig.now) }
    requires fits { (next : ℕ) × Fits (hierarchy sig.now) facts.now next }
    requires inside { AllInside (hierarchy sig.now) types.old.items }
    ensures value { raising_of types.new.items result
        ≡ raise_facts (hierarchy sig.now) (class_in class.now) facts.now (record { types = types.old.items; changed = false }) }
    ensures inside { AllInside (hierarchy sig.now) types.new.items }
{
    let mut changed = false;
    for fact in facts {
        changed = raise_fact(sig, class, types, *fact, changed)?;
    }
    Some(changed)
}

/// The most general type for each of `count` classes.
fn general_types(alloc: Global, count: usize) -> Result<Vec<TypeId>, AllocError>
    ensures { IfOk result (λ v. v.items ≡ replicate count 0) }
{
    let mut types = Vec::with_capacity(alloc, count)?;
    for _class in 0..count {
        types.push(TypeId::of(0))?;
    }
    Ok(types)
}

/// The least types of the classes; None where a join is missing.
pub(crate) fn raise_all(
    alloc: Global,
    sig: &Signature,
    facts: &[Fact],
    class: &[usize],
) -> Result<Option<Vec<TypeId>>, AllocError>
    requires lawful { IsLawful (hierarchy sig.now) }
    requires fits { Fits (hierarchy sig.now) facts.now (length class.now) }
    requires classes { IsClasses facts.now (length class.now) (class_in class.now) }
    ensures { IfOk result (λ o. MatchOption o
        (least_types (hierarchy sig.now) facts.now (length class.now) (class_in class.now) ≡ None)
        (λ v. HasTypes (hierarchy sig.now) facts.now class.now v.items)) }
{
    let mut types = general_types(alloc, class.len())?;
    'passes: loop {
        match raise_facts(sig, facts, class, &mut types) {
            None => return Ok(None),
            Some(changed) => {
                if !changed {
                    return Ok(Some(types));
                }
            }
        }
    }
}
