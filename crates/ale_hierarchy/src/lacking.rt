//! Which types lack a join: have common subtypes, and no least one.
//!
//! Each type has a higher rank than the types below it. So the first common subtype of two types by falling rank
//! is their join, or they have none; it is so where all others are below it. Rows of bits in that order tell
//! both, a word at a time, for each pair of all types.
ghost use Rattle.std.specs.Prelude.{◌≡◌, ℕ, ◌<◌, ◌==◌, ◌&&◌, ◌||◌, ◌++◌, IfOk, OnOk, length, filter, slice_index};
ghost use Rattle.ale_relation.specs.Rows.{holds};
ghost use Rattle.ale_declared.specs.Lists.{upto};
ghost use Rattle.ale_hierarchy.specs.Order.{is_above};
ghost use Rattle.ale_hierarchy.specs.Faults.{lacks_join};
ghost use Rattle.ale_hierarchy.specs.Stages.{IsOrdered};
ghost use Rattle.ale_hierarchy.specs.Ranks.{IsByRank, TellsPlaces, IsRanked};

use crate::order::Order;
use ale_relation::Relation;
use std::alloc::{AllocError, Global};

/// The types by falling rank, and for each type the places of its subtypes in that order.
#[derive(Drop)]
pub struct Ranked {
    types: Vec<usize>,
    places: Relation,
}

impl Ranked {
    /// Ranks the types of an order. The error is want of memory.
    pub fn new(alloc: Global, order: &Order) -> Result<Ranked, AllocError>
        ensures { IfOk result (λ r. IsRanked order.now r.types.items r.places) }
    {
        let types = by_rank(alloc, order)?;
        let places = places(alloc, order, types.as_slice())?;
        Ok(Ranked { types, places })
    }

    /// Whether two types of the order have common subtypes, and no least one.
    pub fn lacks_join(&self, order: &Order, a: usize, b: usize) -> bool
        requires ranked { IsRanked order.now self.now.types.items self.now.places }
        requires a { a < length order.now.types }
        requires b { b < length order.now.types }
        ensures { result ≡ lacks_join order.now a b }
    {
        if are_comparable(order, a, b) {
            return false;
        }
        match self.places.first_common(a, b) {
            Some(place) => self.places.has_common_outside(a, b, self.types[place]),
            None => false,
        }
    }
}

/// Whether one of two types is above the other.
fn are_comparable(order: &Order, a: usize, b: usize) -> bool
    requires a { a < length order.now.types }
    requires b { b < length order.now.types }
    ensures value { result ≡ (is_above order.now a b || is_above order.now b a) }
    ensures ordered { IsOrdered order.now }
{
    order.is_above(a, b) || order.is_above(b, a)
}

/// The types by falling rank.
fn by_rank(alloc: Global, order: &Order) -> Result<Vec<usize>, AllocError>
    ensures { IfOk result (λ v. IsByRank order.now v.items) }
{
    let ranks = order.ranks(alloc)?;
    let highest = order.type_count();
    let mut types = Vec::new(alloc);
    for step in 0..highest + 1 {
        push_of_rank(ranks.as_slice(), highest - step, &mut types)?;
    }
    Ok(types)
}

/// Adds the types of a rank, out of the ranks of all.
fn push_of_rank(ranks: &[usize], rank: usize, types: &mut Vec<usize>) -> Result<(), AllocError>
    ensures { OnOk result (types.new.items ≡ types.old.items ++ filter (λ t. slice_index ranks.now t == rank) (upto (length ranks.now))) }
{
    for t in 0..ranks.len() {
        if ranks[t] == rank {
            types.push(t)?;
        }
    }
    Ok(())
}

/// For each type the places of its subtypes, where all types are listed.
fn places(alloc: Global, order: &Order, types: &[usize]) -> Result<Relation, AllocError>
    requires { IsByRank order.now types.now }
    ensures { IfOk result (λ r. TellsPlaces order.now types.now r) }
{
    let mut places = Relation::new(alloc, order.type_count())?;
    for (place, &t) in types.iter().enumerate() {
        add_place(order, t, place, &mut places);
    }
    Ok(places)
}

/// Lets each type that is above a type stand to that type's place.
fn add_place(order: &Order, t: usize, place: usize, places: &mut Relation)
    requires t { t < length order.now.types }
    requires size { places.old.size ≡ length order.now.types }
    requires place { place < places.old.size }
    ensures size { places.new.size ≡ places.old.size }
    ensures adds { (x y : ℕ) → x < places.old.size → y < places.old.size →
        holds places.new x y ≡ ((y == place && is_above order.now x t) || holds places.old x y) }
{
    for a in 0..order.type_count() {
        if order.is_above(a, t) {
            places.add(a, place);
        }
    }
}
