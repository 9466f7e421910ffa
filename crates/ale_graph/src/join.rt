ghost use Rattle.std.specs.Prelude.{◌≡◌, IfOk, Some, None, false};
ghost use Rattle.ale_graph.specs.Structures.{value_in};
ghost use Rattle.ale_graph.specs.Drafts.{values_in, class_in};
ghost use Rattle.ale_graph.specs.Keeping.{IsJoined, SpeakBelow};
ghost use Rattle.ale_graph.specs.Joining.{join_classes, join_nodes, join_value, join_fact, join_facts, put_value};

use crate::fact::Fact;
use crate::partition::{class_of, merge, own_classes};
use crate::table::{Values, no_values, value_of};
use ale_signature::FeatId;
use std::alloc::{AllocError, Global};

/// Puts two classes together, and says whether anything has changed so far.
fn join_classes(class: &mut Vec<usize>, a: usize, b: usize, changed: bool) -> bool
    ensures { (values : _) → record { class = class.new.items; values = values; changed = result }
        ≡ join_classes a b (record { class = class.old.items; values = values; changed = changed }) }
{
    if a == b {
        changed
    } else {
        merge(class, a, b);
        true
    }
}

/// Puts the classes of two nodes together, and says whether anything has changed so far.
fn join_nodes(class: &mut Vec<usize>, a: usize, b: usize, changed: bool) -> bool
    ensures { (values : _) → record { class = class.new.items; values = values; changed = result }
        ≡ join_nodes a b (record { class = class.old.items; values = values; changed = changed }) }
{
    let first = class_of(class.as_slice(), a);
    let second = class_of(class.as_slice(), b);
    join_classes(class, first, second, changed)
}

/// Adds a value to those of a class.
pub(crate) fn put_value(
    values: &mut Vec<Values>,
    class: usize,
    feature: FeatId,
    node: usize,
) -> Result<(), AllocError>
    ensures { IfOk result (λ _. values.new.items ≡ put_value class feature node values.old.items) }
{
    if let Some(slot) = values.get_mut(class) {
        slot.insert(feature, node)?;
    }
    Ok(())
}

/// Adds a value to those of the node's class, or puts it together with the one that is there.
fn join_value(
    class: &mut Vec<usize>,
    values: &mut Vec<Values>,
    node: usize,
    feature: FeatId,
    value: usize,
    changed: bool,
) -> Result<bool, AllocError>
    ensures { IfOk result (λ r. record { class = class.new.items; values = values.new.items; changed = r }
        ≡ join_fact (Fact.Value node feature value) (record { class = class.old.items; values = values.old.items; changed = changed })) }
{
    let at = class_of(class.as_slice(), node);
    match value_of(values.as_slice(), at, feature) {
        Some(other) => Ok(join_nodes(class, other, value, changed)),
        None => {
            put_value(values, at, feature, value)?;
            Ok(changed)
        }
    }
}

/// Puts together what a fact puts together.
fn join_fact(
    class: &mut Vec<usize>,
    values: &mut Vec<Values>,
    fact: Fact,
    changed: bool,
) -> Result<bool, AllocError>
    ensures { IfOk result (λ r. record { class = class.new.items; values = values.new.items; changed = r }
        ≡ join_fact fact (record { class = class.old.items; values = values.old.items; changed = changed })) }
{
    match fact {
        Fact::Same(a, b) => Ok(join_nodes(class, a, b, changed)),
        Fact::Value(node, feature, value) => join_value(
            class, values, node, feature, value, changed,
        ),
        Fact::OfType(_, _) => Ok(changed),
        Fact::Differ(_, _) => Ok(changed),
    }
}

/// Puts together what the facts put together, each in turn, and says whether anything has changed.
fn join_facts(
    facts: &[Fact],
    class: &mut Vec<usize>,
    values: &mut Vec<Values>,
) -> Result<bool, AllocError>
    ensures { IfOk result (λ r. record { class = class.new.items; values = values.new.items; changed = r }
        ≡ join_facts facts.now (record { class = class.old.items; values = values.old.items; changed = false })) }
{
    let mut changed = false;
    for fact in facts {
        changed = join_fact(class, values, *fact, changed)?;
    }
    Ok(changed)
}

/// The class of each node, and the values of each class.
#[derive(Drop)]
pub(crate) struct Joined {
    pub(crate) class: Vec<usize>,
    pub(crate) values: Vec<Values>,
}

/// The least classes of the nodes below `next` that obey the facts.
pub(crate) fn join_all(alloc: Global, facts: &[Fact], next: usize) -> Result<Joined, AllocError>
    requires { SpeakBelow next facts.now }
    ensures { IfOk result (λ j. IsJoined facts.now next j.class.items j.values.items) }
{
    let mut class = own_classes(alloc, next)?;
    'passes: loop {
        let mut values = no_values(alloc, next)?;
        let changed = join_facts(facts, &mut class, &mut values)?;
        if !changed {
            return Ok(Joined { class, values });
        }
    }
}
