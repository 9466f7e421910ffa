ghost use Rattle.std.specs.Prelude.{◌≡◌, ◌<◌, IfOk};
ghost use Rattle.ale_hierarchy.specs.Hierarchy.{IsLawful};
ghost use Rattle.ale_hierarchy.specs.Order.{hierarchy};
ghost use Rattle.ale_graph.specs.Filling.{fill};
ghost use Rattle.ale_graph.specs.Raising.{AllInside};
ghost use Rattle.ale_graph.specs.Working.{IsDraft, lists_of, filled_of, add_value, fill_feature, fill_class, features_of};

use crate::draft::Draft;
use crate::fact::Fact;
use crate::join::put_value;
use crate::order::{approp, features};
use crate::partition::{class_of, type_of};
use crate::table::{Values, value_of};
use ale_signature::{FeatId, Signature, TypeId};
use std::alloc::{AllocError, Global};

/// Gives a class a new node of the type as its value by the feature.
fn add_value(
    alloc: Global,
    draft: &mut Draft,
    class: usize,
    feature: FeatId,
    of: TypeId,
) -> Result<(), AllocError>
    ensures { IfOk result (λ _. lists_of draft.new ≡ add_value class feature of (lists_of draft.old)) }
{
    let next = draft.class.len();
    draft.facts.push(Fact::Value(class, feature, next))?;
    draft.facts.push(Fact::OfType(next, of))?;
    draft.class.push(next)?;
    draft.types.push(of)?;
    put_value(&mut draft.values, class, feature, next)?;
    draft.values.push(Values::new(alloc))?;
    Ok(())
}

/// Gives a class a new node as its value by the feature, where it lacks one.
fn fill_feature(
    alloc: Global,
    sig: &Signature,
    draft: &mut Draft,
    class: usize,
    feature: FeatId,
) -> Result<(), AllocError>
    requires lawful { IsLawful (hierarchy sig.now) }
    requires feature { feature < (hierarchy sig.now).features }
    requires inside { AllInside (hierarchy sig.now) draft.old.types.items }
    ensures value { IfOk result (λ _. lists_of draft.new ≡ fill_feature (hierarchy sig.now) class feature (lists_of draft.old)) }
    ensures inside { IfOk result (λ _. AllInside (hierarchy sig.now) draft.new.types.items) }
{
    match approp(sig, feature, type_of(draft.types.as_slice(), class)) {
        None => Ok(()),
        Some(of) => match value_of(draft.values.as_slice(), class, feature) {
            Some(_) => Ok(()),
            None => add_value(alloc, draft, class, feature, of),
        },
    }
}

/// Gives a node all that it lacks by its type, where it is a class.
fn fill_class(
    alloc: Global,
    sig: &Signature,
    draft: &mut Draft,
    class: usize,
) -> Result<(), AllocError>
    requires lawful { IsLawful (hierarchy sig.now) }
    requires inside { AllInside (hierarchy sig.now) draft.old.types.items }
    ensures { IfOk result (λ _. lists_of draft.new ≡ fill_class (hierarchy sig.now) class (lists_of draft.old)) }
{
    if class_of(draft.class.as_slice(), class) != class {
        return Ok(());
    }
    for feature in features(sig, type_of(draft.types.as_slice(), class)) {
        fill_feature(alloc, sig, draft, class, *feature)?;
    }
    Ok(())
}

/// Gives each class all that it lacks by its type, the new nodes too.
pub(crate) fn fill(alloc: Global, sig: &Signature, draft: &mut Draft) -> Result<(), AllocError>
    requires lawful { IsLawful (hierarchy sig.now) }
    requires draft { IsDraft (hierarchy sig.now) (lists_of draft.old) }
    ensures value { IfOk result (λ _. filled_of (lists_of draft.new) ≡ fill (hierarchy sig.now) (filled_of (lists_of draft.old))) }
    ensures draft { IfOk result (λ _. IsDraft (hierarchy sig.now) (lists_of draft.new)) }
{
    let mut class = 0;
    'classes: while class < draft.class.len() {
        fill_class(alloc, sig, draft, class)?;
        class += 1;
    }
    Ok(())
}
