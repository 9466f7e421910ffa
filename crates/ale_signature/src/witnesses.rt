//! The first types and features, in the order of their numbers, that show a fault of features.
ghost use Rattle.std.specs.Prelude.{◌≡◌, ℕ, ◌<◌, ◌&&◌, is_none, IfOk, IsTrue, length, filter};
ghost use Rattle.ale_declared.specs.Lists.{is_among};
ghost use Rattle.ale_hierarchy.specs.Order.{mentioning, join_of_some, all_types, all_features};
ghost use Rattle.ale_hierarchy.specs.Faults.{when, first_answer, has_any, two_intros, clashes, clash_fault};
ghost use Rattle.ale_hierarchy.specs.Stages.{IsOrdered, HasLeast, are_within, join_rows, mentions_of, restricted, tabulated};
ghost use Rattle.ale_hierarchy.specs.declared.fault.Fault.TheVariants.{ValueClash};

use crate::restrictions::restriction;
use ale_declared::Mention;
use ale_hierarchy::{Fault, Order, Stop, TypeId, first_tops};
use ale_text::Row;
use std::alloc::{AllocError, Global};

/// That two types introduce a feature, of which those that mention it are given.
pub fn two_intros(
    alloc: Global,
    order: &Order,
    f: usize,
    types: &[TypeId],
) -> Result<Fault, AllocError>
    requires { types.now ≡ mentioning order.now f }
    ensures { IfOk result (λ r. r ≡ two_intros order.now f) }
{
    let ordered = in_order(alloc, order, types)?;
    let tops = first_tops(alloc, order, ordered.as_slice())?;
    Ok(Fault::TwoIntros(f, tops.0, tops.1))
}

/// The types in the order of their numbers, each once.
fn in_order(alloc: Global, order: &Order, types: &[TypeId]) -> Result<Vec<TypeId>, AllocError>
    ensures { IfOk result (λ v. v.items ≡ filter (λ t. is_among t types.now) (all_types order.now)) }
{
    let mut ordered = Vec::new(alloc);
    for t in 0..order.type_count() {
        if has_type(types, t) {
            ordered.push(TypeId::of(t as u16))?;
        }
    }
    Ok(ordered)
}

/// Whether a type is among some.
fn has_type(types: &[TypeId], t: usize) -> bool
    ensures { result ≡ is_among t types.now }
{
    for u in types {
        if u.index() == t {
            return true;
        }
    }
    false
}

/// The first type, and feature of that, at which restrictions that apply have no join.
pub fn value_clash(
    alloc: Global,
    order: &Order,
    joins: &[Row<Option<TypeId>>],
) -> Result<Option<Fault>, AllocError>
    requires joins { joins.now ≡ join_rows order.now }
    requires least { (a b : ℕ) → a < length order.now.types → b < length order.now.types → HasLeast order.now a b }
    ensures { IfOk result (λ r. r ≡ clash_fault order.now) }
{
    let mentions = all_mentions(alloc, order)?;
    let mut types = Vec::new(alloc);
    for t in 0..order.type_count() {
        let found = clash_of(order, joins, mentions.as_slice(), t, &mut types)?;
        if found.is_some() {
            return Ok(found);
        }
    }
    Ok(None)
}

/// The mentions of each feature.
fn all_mentions(alloc: Global, order: &Order) -> Result<Vec<Row<Mention>>, AllocError>
    ensures { IfOk result (λ v. v.items ≡ tabulated (mentions_of order.now.mentions) (length order.now.features)) }
{
    let mut rows = Vec::new(alloc);
    for f in 0..order.feat_count() {
        rows.push(Row::of(order.mentions_of(alloc, f)?))?;
    }
    Ok(rows)
}

/// The first feature on which restrictions that apply at a type have no join. The memory for a list of them
/// is lent.
fn clash_of(
    order: &Order,
    joins: &[Row<Option<TypeId>>],
    mentions: &[Row<Mention>],
    t: usize,
    types: &mut Vec<TypeId>,
) -> Result<Option<Fault>, AllocError>
    requires t { t < length order.now.types }
    requires joins { joins.now ≡ join_rows order.now }
    requires least { (a b : ℕ) → a < length order.now.types → b < length order.now.types → HasLeast order.now a b }
    requires mentions { mentions.now ≡ tabulated (mentions_of order.now.mentions) (length order.now.features) }
    ensures { IfOk result (λ r. r ≡ first_answer (λ f. when (clashes order.now t f) (ValueClash t f)) (all_features order.now)) }
{
    for f in 0..order.feat_count() {
        if has_clash(order, joins, mentions[f].as_slice(), t, types)? {
            return Ok(Some(Fault::ValueClash(t, f)));
        }
    }
    Ok(None)
}

/// Whether those of the mentions that apply at a type have restrictions without a join.
fn has_clash(
    order: &Order,
    joins: &[Row<Option<TypeId>>],
    mentions: &[Mention],
    t: usize,
    types: &mut Vec<TypeId>,
) -> Result<bool, AllocError>
    requires ordered { IsOrdered order.now }
    requires t { t < length order.now.types }
    requires joins { joins.now ≡ join_rows order.now }
    requires least { (a b : ℕ) → a < length order.now.types → b < length order.now.types → HasLeast order.now a b }
    requires mentions { IsTrue (are_within (length order.now.types) mentions.now) }
    ensures { IfOk result (λ r. r ≡ (has_any (restricted order.now t mentions.now) && is_none (join_of_some order.now (restricted order.now t mentions.now)))) }
{
    match restriction(order, joins, mentions, t, types) {
        Ok(_) => Ok(false),
        Err(Stop::Refused) => Ok(true),
        Err(Stop::NoMemory) => Err(AllocError),
    }
}
