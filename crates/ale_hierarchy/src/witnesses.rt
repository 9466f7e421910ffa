//! The first two types, in the order of their numbers, that have common subtypes and no least one, and the first
//! two of the most general of some types.
ghost use Rattle.std.specs.Prelude.{◌≡◌, ◌<◌, IfOk, IsTrue, length, slice_index_or};
ghost use Rattle.ale_hierarchy.specs.Order.{all_types};
ghost use Rattle.ale_hierarchy.specs.Faults.{when, first_answer, no_higher, tops, common_subtypes, lacks_join, no_join, join_fault};
ghost use Rattle.ale_hierarchy.specs.Ranks.{IsRanked};
ghost use Rattle.ale_hierarchy.specs.Stages.{are_below};

use crate::fault::Fault;
use crate::ids::TypeId;
use crate::lacking::Ranked;
use crate::order::Order;
use std::alloc::{AllocError, Global};

/// The first two types with common subtypes and no least one.
pub fn no_join(alloc: Global, order: &Order) -> Result<Option<Fault>, AllocError>
    ensures { IfOk result (λ r. r ≡ join_fault order.now) }
{
    let ranked = Ranked::new(alloc, order)?;
    for a in 0..order.type_count() {
        let found = no_join_of(alloc, order, &ranked, a)?;
        if found.is_some() {
            return Ok(found);
        }
    }
    Ok(None)
}

/// The first type that has common subtypes with `a` and no least one.
fn no_join_of(
    alloc: Global,
    order: &Order,
    ranked: &Ranked,
    a: usize,
) -> Result<Option<Fault>, AllocError>
    requires ranked { IsRanked order.now ranked.now.types.items ranked.now.places }
    requires a { a < length order.now.types }
    ensures { IfOk result (λ r. r ≡ first_answer (λ b. when (lacks_join order.now a b) (no_join order.now a b)) (all_types order.now)) }
{
    for b in 0..order.type_count() {
        if ranked.lacks_join(order, a, b) {
            return Ok(Some(no_join_at(alloc, order, a, b)?));
        }
    }
    Ok(None)
}

/// That two types have no join, with the first two of their most general common subtypes.
fn no_join_at(alloc: Global, order: &Order, a: usize, b: usize) -> Result<Fault, AllocError>
    requires a { a < length order.now.types }
    requires b { b < length order.now.types }
    ensures { IfOk result (λ r. r ≡ no_join order.now a b) }
{
    let common = common_subtypes(alloc, order, a, b)?;
    let tops = first_tops(alloc, order, common.as_slice())?;
    Ok(Fault::NoJoin(a, b, tops.0, tops.1))
}

/// The common subtypes of two types.
fn common_subtypes(
    alloc: Global,
    order: &Order,
    a: usize,
    b: usize,
) -> Result<Vec<TypeId>, AllocError>
    requires a { a < length order.now.types }
    requires b { b < length order.now.types }
    ensures { IfOk result (λ v. v.items ≡ common_subtypes order.now a b) }
{
    let mut common = Vec::new(alloc);
    for c in 0..order.type_count() {
        if order.is_above(a, c) && order.is_above(b, c) {
            common.push(TypeId::of(c as u16))?;
        }
    }
    Ok(common)
}

/// The first two of those of the types that no other of them is above; 0 for one that isn't there.
pub fn first_tops(
    alloc: Global,
    order: &Order,
    types: &[TypeId],
) -> Result<(usize, usize), AllocError>
    requires { IsTrue (are_below (length order.now.types) types.now) }
    ensures first { IfOk result (λ r. r.0 ≡ slice_index_or (tops order.now types.now) 0 0) }
    ensures second { IfOk result (λ r. r.1 ≡ slice_index_or (tops order.now types.now) 1 0) }
{
    let mut tops = Vec::new(alloc);
    for &t in types {
        if is_top(order, t, types) {
            tops.push(t)?;
        }
    }
    Ok((type_at(tops.as_slice(), 0), type_at(tops.as_slice(), 1)))
}

/// Whether none of the types but itself is above a type.
#[tactic(auto, unfolding(crate::specs::Faults::no_higher))]
fn is_top(order: &Order, t: TypeId, types: &[TypeId]) -> bool
    requires t { t < length order.now.types }
    requires types { IsTrue (are_below (length order.now.types) types.now) }
    ensures { result ≡ no_higher order.now types.now t }
{
    for &u in types {
        if u.index() != t.index() && order.is_above(u.index(), t.index()) {
            return false;
        }
    }
    true
}

/// The number at a place, 0 beyond the end.
fn type_at(types: &[TypeId], place: usize) -> usize
    ensures { result ≡ slice_index_or types.now place 0 }
{
    match types.get(place) {
        Some(t) => t.index(),
        None => 0,
    }
}
