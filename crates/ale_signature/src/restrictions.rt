//! Which type introduces each feature, and the restriction on each feature at each type.
ghost use Rattle.std.specs.Prelude.{◌≡◌, ℕ, ◌<◌, ◌≢◌, IfOk, IfErr, IfSome, OnOk, IsErrOf, IsTrue, Some, None, length, map};
ghost use Rattle.ale_relation.specs.Has.{Has};
ghost use Rattle.ale_hierarchy.specs.Order.{Introduces, intro, approp, features, join_of_some};
ghost use Rattle.ale_hierarchy.specs.Faults.{when, lacks_intro, two_intros, intro_fault, clash_fault};
ghost use Rattle.ale_hierarchy.specs.Refusals.{RefusesFor};
ghost use Rattle.ale_hierarchy.specs.Stages.{IsOrdered, tabulated, are_below, HasLeast, join_rows, mentions_of, are_within, restricted, HaveNoJoin, HasRestriction, narrowed, restriction_row, restriction_rows, feature_lists};

use crate::witnesses::{two_intros, value_clash};
use ale_declared::Mention;
use ale_hierarchy::joins::{entry, join_at};
use ale_hierarchy::{FeatId, Order, SigError, Stop, TypeId, most_general, refusal};
use ale_text::Row;
use std::alloc::{AllocError, Global};

/// The types that introduce the features; refused where no type that mentions a feature is above all
/// others that do.
pub fn intros(alloc: Global, order: &Order) -> Result<Vec<TypeId>, SigError>
    ensures value { IfOk result (λ v. v.items ≡ tabulated (intro order.now) (length order.now.features)) }
    ensures introduces { IfOk result (λ _. (f : ℕ) → f < length order.now.features → Introduces order.now f (intro order.now f)) }
    ensures refused { IfErr result (λ e. RefusesFor order.now (intro_fault order.now) e) }
{
    let mut intros = Vec::new(alloc);
    for f in 0..order.feat_count() {
        intros.push(intro_of(alloc, order, f)?)?;
    }
    Ok(intros)
}

/// The type that introduces a feature.
fn intro_of(alloc: Global, order: &Order, f: usize) -> Result<TypeId, SigError>
    requires { f < length order.now.features }
    ensures value { IfOk result (λ t. t ≡ intro order.now f) }
    ensures introduces { IfOk result (λ t. Introduces order.now f t) }
    ensures refused { IfErr result (λ e. RefusesFor order.now (when (lacks_intro order.now f) (two_intros order.now f)) e) }
{
    let mentions = order.mentions_of(alloc, f)?;
    let types = types_at(alloc, order, mentions.as_slice())?;
    match most_general(order, types.as_slice()) {
        Some(t) => Ok(t),
        None => {
            let fault = two_intros(alloc, order, f, types.as_slice())?;
            Err(refusal(alloc, order.outline(), fault))
        }
    }
}

/// The types at which the mentions are.
fn types_at(alloc: Global, order: &Order, mentions: &[Mention]) -> Result<Vec<TypeId>, AllocError>
    requires { IsTrue (are_within (length order.now.types) mentions.now) }
    ensures { IfOk result (λ v. v.items ≡ map (λ m. m.at) mentions.now) }
{
    let mut types = Vec::new(alloc);
    let _ = order.type_count();
    for m in mentions {
        types.push(TypeId::of(m.at as u16))?;
    }
    Ok(types)
}

/// The restrictions on all features at all types; refused where restrictions that apply together have
/// no join.
pub fn restrictions(
    alloc: Global,
    order: &Order,
    joins: &[Row<Option<TypeId>>],
) -> Result<Vec<Row<Option<TypeId>>>, SigError>
    requires joins { joins.now ≡ join_rows order.now }
    requires least { (a b : ℕ) → a < length order.now.types → b < length order.now.types → HasLeast order.now a b }
    ensures rows { IfOk result (λ rows. rows.items ≡ restriction_rows order.now) }
    ensures there { IfOk result (λ _. (f t : ℕ) → f < length order.now.features → t < length order.now.types → HasRestriction order.now f t) }
    ensures refused { IfErr result (λ e. RefusesFor order.now (clash_fault order.now) e) }
{
    match all_restrictions(alloc, order, joins) {
        Ok(rows) => Ok(rows),
        Err(Stop::NoMemory) => Err(SigError::NoMemory),
        Err(Stop::Refused) => Err(clash_refusal(alloc, order, joins)),
    }
}

/// The refusal where restrictions that apply together have no join.
fn clash_refusal(alloc: Global, order: &Order, joins: &[Row<Option<TypeId>>]) -> SigError
    requires joins { joins.now ≡ join_rows order.now }
    requires least { (a b : ℕ) → a < length order.now.types → b < length order.now.types → HasLeast order.now a b }
    requires clash { clash_fault order.now ≢ None }
    ensures { RefusesFor order.now (clash_fault order.now) result }
{
    match value_clash(alloc, order, joins) {
        Ok(Some(fault)) => refusal(alloc, order.outline(), fault),
        Ok(None) => unreachable!(),
        Err(_) => SigError::NoMemory,
    }
}

/// The restrictions on all features at all types, by features.
fn all_restrictions(
    alloc: Global,
    order: &Order,
    joins: &[Row<Option<TypeId>>],
) -> Result<Vec<Row<Option<TypeId>>>, Stop>
    requires joins { joins.now ≡ join_rows order.now }
    requires least { (a b : ℕ) → a < length order.now.types → b < length order.now.types → HasLeast order.now a b }
    ensures rows { IfOk result (λ rows. rows.items ≡ restriction_rows order.now) }
    ensures there { IfOk result (λ _. (f t : ℕ) → f < length order.now.features → t < length order.now.types → HasRestriction order.now f t) }
    ensures refused { IsErrOf result Stop.Refused → clash_fault order.now ≢ None }
{
    let mut rows = Vec::new(alloc);
    for f in 0..order.feat_count() {
        rows.push(restriction_row(alloc, order, joins, f)?)?;
    }
    Ok(rows)
}

/// The restrictions on a feature at all types.
fn restriction_row(
    alloc: Global,
    order: &Order,
    joins: &[Row<Option<TypeId>>],
    f: usize,
) -> Result<Row<Option<TypeId>>, Stop>
    requires f { f < length order.now.features }
    requires joins { joins.now ≡ join_rows order.now }
    requires least { (a b : ℕ) → a < length order.now.types → b < length order.now.types → HasLeast order.now a b }
    ensures row { IfOk result (λ row. row ≡ restriction_row order.now f) }
    ensures there { IfOk result (λ _. (t : ℕ) → t < length order.now.types → HasRestriction order.now f t) }
    ensures refused { IsErrOf result Stop.Refused → clash_fault order.now ≢ None }
{
    let mentions = order.mentions_of(alloc, f)?;
    let mut types = Vec::new(alloc);
    let mut row = Vec::new(alloc);
    for t in 0..order.type_count() {
        row.push(restriction(order, joins, mentions.as_slice(), t, &mut types)?)?;
    }
    Ok(Row::of(row))
}

/// The join of the restrictions of those of the mentions that apply at a type. The memory for a list of
/// them is lent.
pub fn restriction(
    order: &Order,
    joins: &[Row<Option<TypeId>>],
    mentions: &[Mention],
    t: usize,
    types: &mut Vec<TypeId>,
) -> Result<Option<TypeId>, Stop>
    requires ordered { IsOrdered order.now }
    requires t { t < length order.now.types }
    requires joins { joins.now ≡ join_rows order.now }
    requires least { (a b : ℕ) → a < length order.now.types → b < length order.now.types → HasLeast order.now a b }
    requires mentions { IsTrue (are_within (length order.now.types) mentions.now) }
    ensures value { IfOk result (λ r. r ≡ join_of_some order.now (restricted order.now t mentions.now)) }
    ensures there { IfOk result (λ r. (s : ℕ) → Has (restricted order.now t mentions.now) s → (k : ℕ) × (r ≡ Some k)) }
    ensures refused { IsErrOf result Stop.Refused → HaveNoJoin order.now (restricted order.now t mentions.now) }
{
    find_restrictions(order, mentions, t, types)?;
    join_all(order, joins, types.as_slice())
}

/// The restrictions of those of the mentions that apply at a type.
fn find_restrictions(
    order: &Order,
    mentions: &[Mention],
    t: usize,
    types: &mut Vec<TypeId>,
) -> Result<(), AllocError>
    requires t { t < length order.now.types }
    requires mentions { IsTrue (are_within (length order.now.types) mentions.now) }
    ensures { OnOk result (types.new.items ≡ restricted order.now t mentions.now) }
{
    types.clear();
    for &m in mentions {
        if order.is_above(m.at, t) {
            types.push(TypeId::of(m.restriction as u16))?;
        }
    }
    Ok(())
}

/// The join of some types, None where there are no types.
fn join_all(
    order: &Order,
    joins: &[Row<Option<TypeId>>],
    types: &[TypeId],
) -> Result<Option<TypeId>, Stop>
    requires ordered { IsOrdered order.now }
    requires joins { joins.now ≡ join_rows order.now }
    requires least { (a b : ℕ) → a < length order.now.types → b < length order.now.types → HasLeast order.now a b }
    requires types { IsTrue (are_below (length order.now.types) types.now) }
    ensures value { IfOk result (λ r. r ≡ join_of_some order.now types.now) }
    ensures there { IfOk result (λ r. (s : ℕ) → Has types.now s → (k : ℕ) × (r ≡ Some k)) }
    ensures refused { IsErrOf result Stop.Refused → HaveNoJoin order.now types.now }
{
    let mut found = None;
    for &t in types {
        found = Some(narrowed(order, joins, found, t)?);
    }
    Ok(found)
}

/// The join of what was found and one type more.
fn narrowed(
    order: &Order,
    joins: &[Row<Option<TypeId>>],
    found: Option<TypeId>,
    t: TypeId,
) -> Result<TypeId, Stop>
    requires joins { joins.now ≡ join_rows order.now }
    requires t { t < length order.now.types }
    requires found { IfSome found (λ j. j < length order.now.types) }
    ensures value { IfOk result (λ k. narrowed order.now found t ≡ Some k) }
    ensures inside { IfOk result (λ k. k < length order.now.types) }
    ensures refused { IsErrOf result Stop.Refused → narrowed order.now found t ≡ None }
{
    match found {
        None => Ok(t),
        Some(j) => match join_at(order, joins, j.index(), t.index()) {
            Some(k) => Ok(k),
            None => Err(Stop::Refused),
        },
    }
}

/// The restriction on a feature at a type, out of the table.
pub fn restriction_at(
    order: &Order,
    restrictions: &[Row<Option<TypeId>>],
    f: usize,
    t: usize,
) -> Option<TypeId>
    requires f { f < length order.now.features }
    requires t { t < length order.now.types }
    requires restrictions { restrictions.now ≡ restriction_rows order.now }
    ensures value { result ≡ approp order.now f t }
    ensures inside { IfSome result (λ r. r < length order.now.types) }
{
    let _ = order.type_count();
    entry(restrictions, f, t)
}

/// The features appropriate to each type.
pub fn feature_lists(
    alloc: Global,
    order: &Order,
    restrictions: &[Row<Option<TypeId>>],
) -> Result<Vec<Row<FeatId>>, AllocError>
    requires { restrictions.now ≡ restriction_rows order.now }
    ensures { IfOk result (λ lists. lists.items ≡ feature_lists order.now) }
{
    let mut lists = Vec::new(alloc);
    for t in 0..order.type_count() {
        lists.push(features_of(alloc, order, restrictions, t)?)?;
    }
    Ok(lists)
}

/// The features appropriate to a type.
fn features_of(
    alloc: Global,
    order: &Order,
    restrictions: &[Row<Option<TypeId>>],
    t: usize,
) -> Result<Row<FeatId>, AllocError>
    requires t { t < length order.now.types }
    requires restrictions { restrictions.now ≡ restriction_rows order.now }
    ensures { IfOk result (λ fs. fs ≡ features order.now t) }
{
    let mut features = Vec::new(alloc);
    for f in 0..order.feat_count() {
        if restriction_at(order, restrictions, f, t).is_some() {
            features.push(FeatId::of(f as u16))?;
        }
    }
    Ok(Row::of(features))
}
